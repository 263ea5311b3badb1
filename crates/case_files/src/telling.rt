//! How answers are written.

use crate::bytes::cut;
use crate::escapes::escape;
use hw_text::{NoMemory, Place, TextBuf};

/// Appends a line.
pub fn tell_line(out: &mut TextBuf, line: &[u8]) -> Result<(), NoMemory> {
    out.word(line)?;
    out.newline()
}

/// Appends a line of a word and a number.
pub fn tell_number(out: &mut TextBuf, word: &[u8], number: i128) -> Result<(), NoMemory> {
    out.word(word)?;
    out.word(b" ")?;
    out.number(number)?;
    out.newline()
}

/// Appends a number of texts in any of the languages.
pub fn tell_integer(out: &mut TextBuf, value: u128) -> Result<(), NoMemory> {
    match i128::try_from(value) {
        Ok(value) => out.number(value),
        Err(_) => out.word(b"2^127 or more"),
    }
}

/// Appends a place.
pub fn tell_place(out: &mut TextBuf, place: Place) -> Result<(), NoMemory> {
    out.number(i128::from(place.line))?;
    out.word(b":")?;
    out.number(i128::from(place.column))
}

/// Appends what a call printed, or that it printed nothing.
pub fn tell_text(out: &mut TextBuf, text: &[u8]) -> Result<(), NoMemory> {
    if text.is_empty() {
        return tell_line(out, b"(nothing)");
    }
    out.word(text)
}

/// Appends an answer, each line of it four spaces deep. A line that does not end has a lone
/// backslash behind it.
pub fn tell_answer(out: &mut TextBuf, answer: &[u8]) -> Result<(), NoMemory> {
    let mut rest = answer;
    while let Some((line, behind)) = cut(rest, b'\n') {
        out.word(b"    ")?;
        escape(out, line)?;
        if line.len() == rest.len() {
            out.word(b"\\")?;
        }
        out.newline()?;
        rest = behind;
    }
    Ok(())
}

/// Appends how many lines and bytes an answer has; nothing where there is none.
pub fn tell_size(out: &mut TextBuf, answer: &[u8]) -> Result<(), NoMemory> {
    if answer.is_empty() {
        return Ok(());
    }
    out.word(b"    ")?;
    out.number(answer.iter().filter(|&&byte| byte == b'\n').count() as i128)?;
    tell_number(out, b" lines, bytes", answer.len() as i128)
}
