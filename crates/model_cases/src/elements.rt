//! Rows of tables, and what references lead to, as words.

use aadl_names::{ClassRow, Element};
use hw_text::{NoMemory, TextBuf};

/// Appends a kind of rows and a number.
pub fn tell_kind(out: &mut TextBuf, kind: &[u8], number: usize) -> Result<(), NoMemory> {
    out.word(kind)?;
    out.word(b" ")?;
    out.number(number as i128)
}

/// Appends what a line of a table begins with.
pub fn tell_head(out: &mut TextBuf, kind: &[u8], number: usize) -> Result<(), NoMemory> {
    tell_kind(out, kind, number)?;
    out.word(b": ")
}

/// Appends the number of a row, where there is one.
pub fn tell_row(out: &mut TextBuf, row: Option<usize>) -> Result<(), NoMemory> {
    match row {
        Some(row) => out.number(row as i128),
        None => out.word(b"nothing"),
    }
}

/// Appends what a classifier refers to.
pub fn tell_class(out: &mut TextBuf, class: Option<ClassRow>) -> Result<(), NoMemory> {
    match class {
        Some(ClassRow::Base) => out.word(b"base type"),
        Some(ClassRow::Type(number)) => tell_kind(out, b"type", number),
        Some(ClassRow::Implementation(number)) => tell_kind(out, b"implementation", number),
        None => out.word(b"nothing"),
    }
}

/// Appends what a path means, or where a property stands.
pub fn tell_element(out: &mut TextBuf, element: Option<Element>) -> Result<(), NoMemory> {
    match element {
        Some(Element::Type(number)) => tell_kind(out, b"type", number),
        Some(Element::Implementation(number)) => tell_kind(out, b"implementation", number),
        Some(Element::Feature(owner, number)) => tell_part(out, b"feature", owner, number),
        Some(Element::Subcomponent(owner, number)) => {
            tell_part(out, b"subcomponent", owner, number)
        }
        Some(Element::Connection(owner, number)) => tell_part(out, b"connection", owner, number),
        None => out.word(b"nothing"),
    }
}

fn tell_part(out: &mut TextBuf, kind: &[u8], owner: usize, number: usize) -> Result<(), NoMemory> {
    tell_kind(out, kind, owner)?;
    out.word(b".")?;
    out.number(number as i128)
}
