//! Numbers at the front of a text.

ghost use Rattle.std.specs.Prelude.{◌≡◌, ◌<◌, ◌≤◌, ◌==◌, if◌then◌else◌, true, length, IfOk, IfSome};
ghost use Rattle.std.specs.Option.{option_map};
ghost use Rattle.hw_text.specs.Text.{begins_in};
ghost use Rattle.hw_text.specs.declared.bytes.ByteClass.{ByteClass};
ghost use Rattle.aadl_tree.specs.Tokens.{fraction_length, integer_token, real_token, number_token};

use aadl_tree::{Integer, Real, Token};
use hw_text::{ByteClass, NoMemory, behind_byte, decimal};
use std::alloc::Global;

/// The number at the front of a text that begins with a digit, and the text behind it.
#[tactic(auto, unfolding(aadl_tree::specs::Tokens::number_token))]
pub fn number_token(alloc: Global, bytes: &[u8]) -> Result<Option<(Token, &[u8])>, NoMemory>
    requires { begins_in ByteClass.Digits bytes.now ≡ true }
    ensures exact { IfOk result (λ found. option_map (λ r. (r.0, r.1.now)) found ≡ number_token bytes.now) }
    ensures shorter { IfOk result (λ found. IfSome found (λ r. length r.1.now < length bytes.now)) }
{
    let whole = ByteClass::Digits.run_length(bytes);
    let (_, behind) = bytes.split_at(whole);
    let fraction = fraction_length(behind);
    let (text, rest) = bytes.split_at(whole + fraction);
    match whole_or_real(alloc, text, fraction)? {
        Some(number) => Ok(Some((number, rest))),
        None => Ok(None),
    }
}

/// How far a point with digits behind it goes.
fn fraction_length(bytes: &[u8]) -> usize
    ensures within { result ≤ length bytes.now }
    ensures exact { result ≡ fraction_length bytes.now }
{
    match behind_byte(bytes, b'.') {
        Some(digits) if ByteClass::Digits.begins(digits) => {
            1 + ByteClass::Digits.run_length(digits)
        }
        _ => 0,
    }
}

/// The number of this text, whose fraction is so many bytes long.
fn whole_or_real(alloc: Global, text: &[u8], fraction: usize) -> Result<Option<Token>, NoMemory>
    ensures { IfOk result (λ found. found ≡ (if fraction == 0 then integer_token text.now else real_token text.now)) }
{
    if fraction == 0 {
        return Ok(integer_token(text));
    }
    real_token(alloc, text)
}

/// The whole number that the digits spell.
fn integer_token(digits: &[u8]) -> Option<Token>
    ensures { result ≡ integer_token digits.now }
{
    let number = decimal(digits)?;
    Some(Token::Integer(Integer::new(number)))
}

/// The number with a fraction that is written so.
fn real_token(alloc: Global, text: &[u8]) -> Result<Option<Token>, NoMemory>
    ensures { IfOk result (λ found. found ≡ real_token text.now) }
{
    match Real::read(alloc, text)? {
        Some(real) => Ok(Some(Token::Real(real))),
        None => Ok(None),
    }
}
