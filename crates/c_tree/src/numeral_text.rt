//! What integer literals say.

ghost use Rattle.std.specs.Prelude.{◌≡◌, ◌<◌, ◌≤◌, ◌^◌, ◌+◌, ◌*◌, ℕ, true, false, length, drop, Some, None, SomeIff, IfSome, IfNone, MatchOption};
ghost use Rattle.c_tree.specs.Numerals.{is_in, begins_hex, past_digits, past_numeral, base, digit_value, number_from, numeral_value, candidates, first_holding, numeral_type, is_numeral};

use crate::byte_class::{ByteClass, digit_value};
use crate::integer_type::IntegerType;

/// The bytes behind the first ones.
fn behind(bytes: &[u8], count: usize) -> &[u8]
    requires { count ≤ length bytes.now }
    ensures { result.now ≡ drop count bytes.now }
{
    let (_, rest) = bytes.split_at(count);
    rest
}

/// The digits behind `0x`, where the bytes begin with that and a hex digit.
fn hex_digits(bytes: &[u8]) -> Option<&[u8]>
    ensures some { MatchOption result (begins_hex bytes.now ≡ false) (λ rest. (begins_hex bytes.now ≡ true) × (rest.now ≡ drop 2 bytes.now)) }
{
    if bytes.len() < 2 {
        return None;
    }
    let digits = behind(bytes, 2);
    if ByteClass::Zero.begins(bytes)
        && ByteClass::BaseMark.begins(behind(bytes, 1))
        && ByteClass::HexDigit.begins(digits)
    {
        Some(digits)
    } else {
        None
    }
}

/// The bytes behind the digits of the literal that they begin with.
fn past_digits(bytes: &[u8]) -> &[u8]
    ensures rest { result.now ≡ past_digits bytes.now }
    ensures within { length result.now ≤ length bytes.now }
{
    if let Some(digits) = hex_digits(bytes) {
        return ByteClass::HexDigit.past_all(digits);
    }
    if ByteClass::Zero.begins(bytes) {
        return ByteClass::Zero.past_one(bytes);
    }
    ByteClass::Digit.past_all(bytes)
}

/// The bytes behind the longest literal that they begin with.
pub fn past_numeral(bytes: &[u8]) -> &[u8]
    ensures rest { result.now ≡ past_numeral bytes.now }
    ensures within { length result.now ≤ length bytes.now }
{
    let suffix = past_digits(bytes);
    let signed = ByteClass::Unsigned.past_one(suffix);
    ByteClass::Long.past_one(ByteClass::Long.past_one(signed))
}

/// The number, with one more digit behind it.
fn with_digit(class: ByteClass, number: u64, byte: u8) -> Option<u64>
    requires { is_in ByteClass.HexDigit byte ≡ true }
    ensures { SomeIff result (number * base class + digit_value byte < 2 ^ 64) (number * base class + digit_value byte) }
{
    let digit = u64::from(digit_value(byte));
    number.checked_mul(class.base())?.checked_add(digit)
}

/// The number that the digits at the front make.
fn number(class: ByteClass, bytes: &[u8]) -> Option<u64>
    requires { (b : ℕ) → is_in class b ≡ true → is_in ByteClass.HexDigit b ≡ true }
    ensures { SomeIff result (number_from class 0 bytes.now < 2 ^ 64) (number_from class 0 bytes.now) }
{
    let mut number = 0;
    for &byte in bytes {
        if !class.has(byte) {
            return Some(number);
        }
        let Some(next) = with_digit(class, number, byte) else {
            return None;
        };
        number = next;
    }
    Some(number)
}

fn numeral_value(bytes: &[u8]) -> Option<u64>
    ensures { SomeIff result (numeral_value bytes.now < 2 ^ 64) (numeral_value bytes.now) }
{
    match hex_digits(bytes) {
        Some(digits) => number(ByteClass::HexDigit, digits),
        None => number(ByteClass::Digit, bytes),
    }
}

/// The types that a literal may have.
fn candidates(hex: bool, unsigned: bool, long: bool) -> &'static [IntegerType]
    ensures { result.now ≡ candidates hex unsigned long }
{
    match (hex, unsigned, long) {
        (false, false, false) => &[IntegerType::I32, IntegerType::I64],
        (true, false, false) => &[
            IntegerType::I32,
            IntegerType::U32,
            IntegerType::I64,
            IntegerType::U64,
        ],
        (_, true, false) => &[IntegerType::U32, IntegerType::U64],
        (false, false, true) => &[IntegerType::I64],
        (true, false, true) => &[IntegerType::I64, IntegerType::U64],
        (_, true, true) => &[IntegerType::U64],
    }
}

fn first_holding(number: u64, types: &[IntegerType]) -> Option<IntegerType>
    ensures { result ≡ first_holding number types.now }
{
    for &class in types {
        if number <= class.largest() {
            return Some(class);
        }
    }
    None
}

/// The value and the type of a literal, where one of its types holds it.
pub fn meaning(bytes: &[u8]) -> Option<(u64, IntegerType)>
    ensures some { IfSome result (λ r. (r.0 ≡ numeral_value bytes.now) × (numeral_type bytes.now ≡ Some r.1)) }
    ensures none { IfNone result (numeral_type bytes.now ≡ None) }
{
    let value = numeral_value(bytes)?;
    let hex = hex_digits(bytes).is_some();
    let suffix = past_digits(bytes);
    let unsigned = ByteClass::Unsigned.begins(suffix);
    let long = ByteClass::Long.begins(ByteClass::Unsigned.past_one(suffix));
    let class = first_holding(value, candidates(hex, unsigned, long))?;
    Some((value, class))
}

/// Whether the bytes are a literal that a type holds.
#[tactic(auto, unfolding(crate::specs::Numerals::is_numeral))]
pub fn is_numeral(bytes: &[u8]) -> bool
    ensures { result ≡ is_numeral bytes.now }
{
    ByteClass::Digit.begins(bytes) && past_numeral(bytes).is_empty() && meaning(bytes).is_some()
}
