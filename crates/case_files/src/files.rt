//! A case file from a store, printed with its answers.

use crate::answerer::Answerer;
use crate::telling::tell_line;
use crate::transcript::show_text;
use hw_io::{ReadAnswer, Sink, Store, write_all};
use hw_text::{NoMemory, TextBuf};
use std::alloc::Global;

/// Why a file is not printed whole.
#[derive(Clone, Copy, Debug, PartialEq, Eq)]
pub enum Unshown {
    NoMemory,
    /// The sink does not take all.
    NotPrinted,
}

/// Prints a case file, with the answers below its questions.
pub fn show_file<S: Store, O: Sink, A: Answerer>(
    alloc: Global,
    disk: &mut S,
    name: &str,
    answerer: &mut A,
    sink: &mut O,
) -> Result<(), Unshown> {
    let Ok(text) = shown(alloc, disk, name, answerer) else {
        return Err(Unshown::NoMemory);
    };
    match write_all(sink, text.rows()) {
        Ok(()) => Ok(()),
        Err(_) => Err(Unshown::NotPrinted),
    }
}

/// What is printed of a case file.
fn shown<S: Store, A: Answerer>(
    alloc: Global,
    disk: &mut S,
    name: &str,
    answerer: &mut A,
) -> Result<TextBuf, NoMemory> {
    let mut out = TextBuf::new(alloc);
    out.word(b"==== ")?;
    tell_line(&mut out, name.as_bytes())?;
    match disk.read(alloc, name) {
        ReadAnswer::Bytes(bytes) => show_text(alloc, answerer, bytes.rows(), &mut out)?,
        ReadAnswer::Absent => tell_line(&mut out, b"no such file")?,
        ReadAnswer::Failed => tell_line(&mut out, b"not to be read")?,
        ReadAnswer::NoMemory => return Err(NoMemory),
    }
    Ok(out)
}
