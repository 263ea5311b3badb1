//! The bytes that literals are made of.

ghost use Rattle.std.specs.Prelude.{◌≡◌, ◌<◌, ◌≤◌, true, length, drop};
ghost use Rattle.c_tree.specs.Numerals.{is_in, begins_in, past_one, past_all, base, digit_value};

use hw_text::is_digit;

/// A class of bytes in literals.
#[derive(Clone, Copy)]
pub enum ByteClass {
    Zero,
    Digit,
    HexDigit,
    /// `x`
    BaseMark,
    /// `u`, in either case.
    Unsigned,
    /// `l`, in either case.
    Long,
}

impl ByteClass {
    pub fn has(self, byte: u8) -> bool
        ensures { result ≡ is_in self byte }
    {
        match self {
            ByteClass::Zero => byte == b'0',
            ByteClass::Digit => is_digit(byte),
            ByteClass::HexDigit => {
                is_digit(byte) || (b'a' <= byte && byte <= b'f') || (b'A' <= byte && byte <= b'F')
            }
            ByteClass::BaseMark => byte == b'x',
            ByteClass::Unsigned => byte == b'u' || byte == b'U',
            ByteClass::Long => byte == b'l' || byte == b'L',
        }
    }

    /// Whether the bytes begin with one of the class.
    pub fn begins(self, bytes: &[u8]) -> bool
        ensures { result ≡ begins_in self bytes.now }
    {
        match bytes.split_first() {
            Some((&first, _)) => self.has(first),
            None => false,
        }
    }

    /// The bytes behind one of the class, where they begin with one.
    pub fn past_one(self, bytes: &[u8]) -> &[u8]
        ensures rest { result.now ≡ past_one self bytes.now }
        ensures within { length result.now ≤ length bytes.now }
    {
        match bytes.split_first() {
            Some((&first, rest)) if self.has(first) => rest,
            _ => bytes,
        }
    }

    /// The bytes behind all of the class that they begin with.
    pub fn past_all(self, bytes: &[u8]) -> &[u8]
        ensures rest { result.now ≡ past_all self bytes.now }
        ensures within { length result.now ≤ length bytes.now }
    {
        let mut rest = bytes;
        while let Some((&first, after)) = rest.split_first() {
            if !self.has(first) {
                return rest;
            }
            rest = after;
        }
        rest
    }

    /// The base of numbers whose digits these are.
    pub fn base(self) -> u64
        ensures { result ≡ base self }
    {
        match self {
            ByteClass::HexDigit => 16,
            _ => 10,
        }
    }
}

/// What a digit or a hex digit stands for.
pub fn digit_value(byte: u8) -> u8
    requires { is_in ByteClass.HexDigit byte ≡ true }
    ensures { result ≡ digit_value byte }
{
    if is_digit(byte) {
        byte - b'0'
    } else if b'a' <= byte {
        byte - 87
    } else {
        byte - 55
    }
}
