//! Names, refusals, and calls on pieces of text.

use crate::refusals;
use case_files::{Question, Trouble, tell_integer, tell_line, tell_place, tell_text};
use hw_text::{Name, NameFault, NoMemory, Place, TextBuf, decimal, place_of_rest, skipped};
use std::alloc::Global;

/// Whether the question is one of names, refusals or pieces of text.
pub fn answer(alloc: Global, question: &Question, out: &mut TextBuf) -> Result<bool, Trouble> {
    match question.word.rows() {
        b"name" => name(alloc, question.whole(alloc)?.rows(), out)?,
        b"decimal" => tell_decimal(out, question.whole(alloc)?.rows())?,
        b"skipped" => tell_text(out, skipped(question.whole(alloc)?.rows()))?,
        b"place" => place(question, out)?,
        b"refusals" => refusals::all(alloc, question.head.rows(), out)?,
        b"not_built" => refusals::not_built(alloc, question.head.rows(), out)?,
        _ => return Ok(false),
    }
    Ok(true)
}

/// A name of a model, copied.
fn name(alloc: Global, bytes: &[u8], out: &mut TextBuf) -> Result<(), Trouble> {
    match Name::read(alloc, bytes) {
        Ok(name) => Ok(tell_line(out, name.copy()?.rows())?),
        Err(NameFault::BadName) => Ok(tell_line(out, b"no name")?),
        Err(NameFault::NoMemory) => Err(Trouble::NoMemory),
    }
}

fn tell_decimal(out: &mut TextBuf, digits: &[u8]) -> Result<(), NoMemory> {
    match decimal(digits) {
        Some(number) => {
            tell_integer(out, number)?;
            out.newline()
        }
        None => tell_line(out, b"no number"),
    }
}

/// `place COUNT`: the place of the last so many bytes of the text below the question.
fn place(question: &Question, out: &mut TextBuf) -> Result<(), Trouble> {
    let text = question.text.rows();
    let left = (question.count()? as usize).min(text.len());
    let (_, rest) = text.split_at(text.len() - left);
    tell_place(out, place_of_rest(Place::START, text, rest))?;
    Ok(out.newline()?)
}
