//! The front of a text: bytes of a class, runs of them, and given bytes.

ghost use Rattle.std.specs.Prelude.{◌≡◌, ◌≤◌, ◌+◌, ◌∷◌, [], false, length, IfSome, MatchOption};
ghost use Rattle.std.specs.Option.{option_map};
ghost use Rattle.hw_text.specs.Name.{is_letter, is_digit};
ghost use Rattle.hw_text.specs.Text.{is_in, begins_in, begins_with, run_length, behind_bytes, text_length};

/// The byte `_`.
const UNDERSCORE: u8 = b'_';

/// A class of bytes of which words or numbers consist, beside single underscores.
#[derive(Clone, Copy, Debug, PartialEq, Eq)]
pub enum ByteClass {
    Digits,
    LettersAndDigits,
}

impl ByteClass {
    fn has(self, byte: u8) -> bool
        ensures { result ≡ is_in self byte }
    {
        match self {
            ByteClass::Digits => is_digit(byte),
            ByteClass::LettersAndDigits => is_letter(byte) || is_digit(byte),
        }
    }

    /// Whether the bytes begin with one of the class.
    pub fn begins(self, bytes: &[u8]) -> bool
        ensures { result ≡ begins_in self bytes.now }
    {
        match front(bytes) {
            Some((first, _)) => self.has(first),
            None => false,
        }
    }

    /// How many bytes at the front are of the class, or single underscores that each have one of
    /// the class behind them.
    pub fn run_length(self, bytes: &[u8]) -> usize
        ensures within { result ≤ length bytes.now }
        ensures run { result ≡ run_length self bytes.now }
    {
        let mut count = 0;
        let mut rest = bytes;
        while let Some((first, after)) = front(rest) {
            if !self.has(first) && !(first == UNDERSCORE && self.begins(after)) {
                return count;
            }
            count += 1;
            rest = after;
        }
        count
    }
}

pub fn is_letter(byte: u8) -> bool
    ensures { result ≡ is_letter byte }
{
    (b'A' <= byte && byte <= b'Z') || (b'a' <= byte && byte <= b'z')
}

pub fn is_digit(byte: u8) -> bool
    ensures { result ≡ is_digit byte }
{
    b'0' <= byte && byte <= b'9'
}

/// The first byte, and those behind it.
pub fn front(bytes: &[u8]) -> Option<(u8, &[u8])>
    ensures { MatchOption result (bytes.now ≡ []) (λ r. bytes.now ≡ r.0 ∷ r.1.now) }
{
    match bytes.split_first() {
        Some((&first, rest)) => Some((first, rest)),
        None => None,
    }
}

/// Whether the bytes begin with this one.
pub fn begins_with(bytes: &[u8], byte: u8) -> bool
    ensures { result ≡ begins_with byte bytes.now }
{
    match front(bytes) {
        Some((first, _)) => first == byte,
        None => false,
    }
}

/// The text behind this byte, where it begins with it.
pub fn behind_byte(bytes: &[u8], byte: u8) -> Option<&[u8]>
    ensures { MatchOption result (begins_with byte bytes.now ≡ false) (λ rest. bytes.now ≡ byte ∷ rest.now) }
{
    match front(bytes) {
        Some((first, rest)) if first == byte => Some(rest),
        _ => None,
    }
}

/// The text behind these bytes, where it begins with them.
pub fn behind_bytes<'a>(bytes: &'a [u8], begin: &[u8]) -> Option<&'a [u8]>
    ensures exact { option_map (λ rest. rest.now) result ≡ behind_bytes begin.now bytes.now }
    ensures shorter { IfSome result (λ rest. length rest.now + length begin.now ≡ length bytes.now) }
{
    let mut rest = bytes;
    for &byte in begin {
        let (first, after) = front(rest)?;
        if first != byte {
            return None;
        }
        rest = after;
    }
    Some(rest)
}

/// How many bytes stand before a quote, a line end, or the end.
pub fn text_length(bytes: &[u8]) -> usize
    ensures within { result ≤ length bytes.now }
    ensures exact { result ≡ text_length bytes.now }
{
    let mut count = 0;
    for &byte in bytes {
        if byte == b'"' || byte == b'\n' {
            return count;
        }
        count += 1;
    }
    count
}
