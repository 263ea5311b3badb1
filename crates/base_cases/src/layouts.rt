//! Layouts of types, and values as bytes.

use crate::chains::chain;
use crate::lists::{numbers, tell_numbers};
use crate::type_text::type_of;
use case_files::{Question, Trouble, pieces, tell_hex, tell_line, tell_number, two_digits};
use hw_text::{ByteList, NoMemory, TextBuf, WordList};
use hw_types::{FieldCell, Layout, Scalar, TypeFault, bytes_of, layout_of, value_of};
use std::alloc::Global;

/// Whether the question is one of types and values; those of values speak of the last type.
pub fn answer(
    alloc: Global,
    question: &Question,
    last: &mut Option<Layout>,
    out: &mut TextBuf,
) -> Result<bool, Trouble> {
    match question.word.rows() {
        b"layout" => layout(alloc, question, last, out)?,
        b"chain" => chain(alloc, question, out)?,
        b"bytes" => value_in(alloc, known(last)?, &question.words(alloc)?, out)?,
        b"value" => bytes_for(alloc, known(last)?, &question.words(alloc)?, out)?,
        _ => return Ok(false),
    }
    Ok(true)
}

/// The layout of the last type.
fn known(last: &Option<Layout>) -> Result<&Layout, Trouble> {
    match last {
        Some(layout) => Ok(layout),
        None => Err(Trouble::BadLine),
    }
}

/// `layout TYPE`: the layout of a copy of the type, of which later questions speak.
fn layout(
    alloc: Global,
    question: &Question,
    last: &mut Option<Layout>,
    out: &mut TextBuf,
) -> Result<(), Trouble> {
    let words = pieces(alloc, question.whole(alloc)?.rows(), b' ')?;
    let ty = type_of(alloc, &words)?.copy()?;
    match layout_of(alloc, &ty) {
        Ok(layout) => {
            tell_layout(out, &layout)?;
            *last = Some(layout.copy()?);
        }
        Err(TypeFault::TooWide(count)) => tell_number(out, b"too wide", i128::from(count))?,
        Err(TypeFault::NoMemory) => return Err(Trouble::NoMemory),
    }
    Ok(())
}

/// `size SIZE align ALIGN: OFFSET SCALAR, OFFSET SCALAR ..`
pub fn tell_layout(out: &mut TextBuf, layout: &Layout) -> Result<(), NoMemory> {
    out.word(b"size ")?;
    out.number(i128::from(layout.size()))?;
    out.word(b" align ")?;
    out.number(i128::from(layout.align()))?;
    for (place, cell) in layout.scalars().iter().enumerate() {
        out.word(if place == 0 { b": " } else { b", " })?;
        tell_cell(out, *cell)?;
    }
    out.newline()
}

fn tell_cell(out: &mut TextBuf, cell: FieldCell) -> Result<(), NoMemory> {
    out.number(i128::from(cell.offset))?;
    match cell.scalar {
        Scalar::U8 => out.word(b" u8"),
        Scalar::U16 => out.word(b" u16"),
        Scalar::U32 => out.word(b" u32"),
        Scalar::U64 => out.word(b" u64"),
        Scalar::I8 => out.word(b" i8"),
        Scalar::I16 => out.word(b" i16"),
        Scalar::I32 => out.word(b" i32"),
        Scalar::I64 => out.word(b" i64"),
        Scalar::Flag => out.word(b" flag"),
        Scalar::Choice(names) => {
            out.word(b" choice:")?;
            out.number(i128::from(names))
        }
    }
}

/// `bytes HEX HEX ..`: the value for which the bytes stand.
fn value_in(
    alloc: Global,
    layout: &Layout,
    words: &WordList,
    out: &mut TextBuf,
) -> Result<(), Trouble> {
    let mut bytes = ByteList::new(alloc);
    for word in words.rows() {
        let (byte, _) = two_digits(word.rows())?;
        bytes.push(byte)?;
    }
    match value_of(alloc, layout, bytes.rows())? {
        Some(value) => {
            out.word(b"value")?;
            Ok(tell_numbers(out, value.rows())?)
        }
        None => Ok(tell_line(out, b"no value")?),
    }
}

/// `value NUMBER NUMBER ..`: the bytes that stand for the value.
fn bytes_for(
    alloc: Global,
    layout: &Layout,
    words: &WordList,
    out: &mut TextBuf,
) -> Result<(), Trouble> {
    let value = numbers(alloc, words)?;
    if !layout.holds(value.rows()) {
        return Ok(tell_line(out, b"no value")?);
    }
    out.word(b"bytes")?;
    for &byte in bytes_of(alloc, layout, &value)?.rows() {
        out.word(b" ")?;
        tell_hex(out, byte)?;
    }
    Ok(out.newline()?)
}
