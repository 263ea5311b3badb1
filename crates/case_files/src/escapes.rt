//! Bytes that no line of a case file can hold as they are.

ghost use Rattle.std.specs.Prelude.{◌≤◌, length, IfOk};

use crate::trouble::Trouble;
use hw_text::{NoMemory, TextBuf, front};
use std::alloc::Global;

const DIGITS: [u8; 16] = *b"0123456789abcdef";

/// Appends the bytes that the text stands for.
pub fn unescape(out: &mut TextBuf, text: &[u8]) -> Result<(), Trouble> {
    let mut rest = text;
    while let Some((first, after)) = front(rest) {
        if first == b'\\' {
            let (byte, behind) = escaped(after)?;
            out.word(&[byte])?;
            rest = behind;
        } else {
            out.word(&[first])?;
            rest = after;
        }
    }
    Ok(())
}

/// The bytes that a text stands for.
pub fn unescaped(alloc: Global, text: &[u8]) -> Result<TextBuf, Trouble> {
    let mut out = TextBuf::new(alloc);
    unescape(&mut out, text)?;
    Ok(out)
}

/// The byte that is written behind a backslash, and the text behind it.
fn escaped(text: &[u8]) -> Result<(u8, &[u8]), Trouble>
    ensures { IfOk result (λ r. length r.1.now ≤ length text.now) }
{
    let Some((first, rest)) = front(text) else {
        return Err(Trouble::BadLine);
    };
    match first {
        b'\\' => Ok((b'\\', rest)),
        b'n' => Ok((b'\n', rest)),
        b'r' => Ok((b'\r', rest)),
        b't' => Ok((b'\t', rest)),
        b's' => Ok((b' ', rest)),
        b'x' => two_digits(rest),
        _ => Err(Trouble::BadLine),
    }
}

/// The byte that two digits in base sixteen spell, and the text behind them.
pub fn two_digits(text: &[u8]) -> Result<(u8, &[u8]), Trouble>
    ensures { IfOk result (λ r. length r.1.now ≤ length text.now) }
{
    let Some((high, after)) = front(text) else {
        return Err(Trouble::BadLine);
    };
    let Some((low, rest)) = front(after) else {
        return Err(Trouble::BadLine);
    };
    match (digit(high), digit(low)) {
        (Some(high), Some(low)) => Ok((high.wrapping_mul(16).wrapping_add(low), rest)),
        _ => Err(Trouble::BadLine),
    }
}

fn digit(byte: u8) -> Option<u8> {
    match byte {
        b'0'..=b'9' => Some(byte - b'0'),
        b'a'..=b'f' => Some(byte - b'a' + 10),
        _ => None,
    }
}

/// Appends the text that stands for the bytes.
pub fn escape(out: &mut TextBuf, bytes: &[u8]) -> Result<(), NoMemory> {
    for &byte in bytes {
        match byte {
            b'\\' => out.word(b"\\\\")?,
            b'\n' => out.word(b"\\n")?,
            b'\r' => out.word(b"\\r")?,
            b'\t' => out.word(b"\\t")?,
            b' '..=b'~' => out.word(&[byte])?,
            _ => {
                out.word(b"\\x")?;
                tell_hex(out, byte)?;
            }
        }
    }
    Ok(())
}

/// Appends a byte as two digits in base sixteen.
pub fn tell_hex(out: &mut TextBuf, byte: u8) -> Result<(), NoMemory> {
    out.word(&[DIGITS[(byte / 16) as usize], DIGITS[(byte % 16) as usize]])
}
