//! The front of a text, up to a byte.

ghost use Rattle.std.specs.Prelude.{◌≤◌, ◌<◌, ◌-◌, length, IfSome};

use hw_text::{NoMemory, WordList};
use std::alloc::Global;
use std::str;

/// How many bytes stand before the first of this kind, or how many there are where there is none.
fn until(bytes: &[u8], stop: u8) -> usize
    ensures { result ≤ length bytes.now }
{
    for (place, &byte) in bytes.iter().enumerate() {
        if byte == stop {
            return place;
        }
    }
    bytes.len()
}

/// The bytes behind the first.
fn past_first(bytes: &[u8]) -> &[u8]
    ensures { length result.now ≤ length bytes.now - 1 }
{
    match bytes.split_first() {
        Some((_, rest)) => rest,
        None => bytes,
    }
}

/// What stands before the first byte of this kind, and what behind it; nothing where the text is
/// empty.
pub fn cut(bytes: &[u8], stop: u8) -> Option<(&[u8], &[u8])>
    ensures { IfSome result (λ r. length r.1.now < length bytes.now) }
{
    if bytes.is_empty() {
        return None;
    }
    let (front, back) = bytes.split_at(until(bytes, stop));
    Some((front, past_first(back)))
}

/// What stands before the first space, and what behind it.
pub fn at_space(bytes: &[u8]) -> (&[u8], &[u8]) {
    cut(bytes, b' ').unwrap_or((bytes, bytes))
}

/// The pieces between bytes of this kind.
pub fn pieces(alloc: Global, bytes: &[u8], stop: u8) -> Result<WordList, NoMemory> {
    let mut pieces = WordList::new(alloc);
    let mut rest = bytes;
    while let Some((piece, behind)) = cut(rest, stop) {
        pieces.push(piece)?;
        rest = behind;
    }
    Ok(pieces)
}

/// The number that the bytes spell, with or without a sign.
pub fn number(bytes: &[u8]) -> Option<i128> {
    match str::from_utf8(bytes) {
        Ok(digits) => digits.parse::<i128>().ok(),
        Err(_) => None,
    }
}

/// The number that the bytes spell, where it is not negative and not large.
pub fn count(bytes: &[u8]) -> Option<u32> {
    match number(bytes) {
        Some(number) => u32::try_from(number).ok(),
        None => None,
    }
}
