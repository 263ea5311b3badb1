//! Names and literals of contracts and C.

use c_tree::Numeral;
use case_files::{Question, Trouble, tell_line};
use hw_text::TextBuf;
use std::alloc::Global;

/// Whether the question is one of names or literals.
pub fn answer(alloc: Global, question: &Question, out: &mut TextBuf) -> Result<bool, Trouble> {
    match question.word.rows() {
        b"c_name" => c_name(alloc, question.whole(alloc)?.rows(), out)?,
        b"contract_name" => contract_name(alloc, question.whole(alloc)?.rows(), out)?,
        b"literal" => literal(alloc, question.whole(alloc)?.rows(), out)?,
        _ => return Ok(false),
    }
    Ok(true)
}

/// A name of C, copied.
fn c_name(alloc: Global, bytes: &[u8], out: &mut TextBuf) -> Result<(), Trouble> {
    match c_tree::Identifier::read(alloc, bytes)? {
        Some(name) => Ok(tell_line(out, name.copy()?.rows())?),
        None => Ok(tell_line(out, b"no name")?),
    }
}

/// A name of a contract, copied.
fn contract_name(alloc: Global, bytes: &[u8], out: &mut TextBuf) -> Result<(), Trouble> {
    match gumbo_parse::Identifier::read(alloc, bytes)? {
        Some(name) => Ok(tell_line(out, name.copy()?.rows())?),
        None => Ok(tell_line(out, b"no name")?),
    }
}

/// A literal of C, copied, with its value and its type.
fn literal(alloc: Global, bytes: &[u8], out: &mut TextBuf) -> Result<(), Trouble> {
    let Some(read) = Numeral::read(alloc, bytes)? else {
        return Ok(tell_line(out, b"no literal")?);
    };
    let copy = read.copy()?;
    out.word(copy.rows())?;
    out.word(b" is ")?;
    out.number(i128::from(copy.value()))?;
    out.word(b" ")?;
    Ok(tell_line(out, copy.class().spelling().as_bytes())?)
}
