//! Texts of models, contracts and C: read and printed again, or refused.

use crate::tokens;
use aadl_tree::print as print_model;
use c_parse::{parse as parse_user, parse_full};
use c_tree::{Unit, print as print_unit};
use case_files::{Context, Question, Trouble, tell_line, tell_text};
use gumbo_parse::{parse_annex, print_annex};
use hw_text::{Fault, NoMemory, Place, TextBuf};
use std::alloc::Global;

/// Where a contract stands in its file.
const ANNEX: Place = Place {
    line: 7,
    column: 20,
};

/// Whether the question is one of whole texts or their tokens.
pub fn answer(
    alloc: Global,
    context: &Context,
    question: &Question,
    out: &mut TextBuf,
) -> Result<bool, Trouble> {
    let text = context.framed(alloc, question)?;
    match question.word.rows() {
        b"model" => tell_text(out, model(alloc, text.rows())?.rows())?,
        b"contract" => tell_text(out, contract(alloc, text.rows())?.rows())?,
        b"user" => tell_text(out, user(alloc, text.rows())?.rows())?,
        b"full" => tell_text(out, full(alloc, text.rows())?.rows())?,
        b"c" => tell_both(alloc, text.rows(), out)?,
        b"model_tokens" => tokens::of_model(alloc, text.rows(), out)?,
        b"c_tokens" => tokens::of_c(alloc, text.rows(), out)?,
        _ => return Ok(false),
    }
    Ok(true)
}

/// The canonical text of a model, or the line of its refusal as the file `m`.
fn model(alloc: Global, text: &[u8]) -> Result<TextBuf, NoMemory> {
    match aadl_parse::parse(alloc, text) {
        Ok(model) => print_model(alloc, &model),
        Err(fault) => refused(alloc, fault, b"m"),
    }
}

/// The canonical text of a contract, or the line of its refusal as one of the file `m`.
fn contract(alloc: Global, text: &[u8]) -> Result<TextBuf, NoMemory> {
    match parse_annex(alloc, text, ANNEX) {
        Ok(contract) => print_annex(alloc, &contract),
        Err(fault) => refused(alloc, fault, b"m"),
    }
}

fn refused(alloc: Global, fault: Fault, file: &[u8]) -> Result<TextBuf, NoMemory> {
    match fault {
        Fault::Refused(refusal) => refusal.line(alloc, file),
        Fault::NoMemory => Err(NoMemory),
    }
}

/// The canonical text of a user's text of C, or the line of its refusal as the file `u`.
fn user(alloc: Global, text: &[u8]) -> Result<TextBuf, NoMemory> {
    unit(alloc, parse_user(alloc, text))
}

/// The same in the grammar of generated files.
fn full(alloc: Global, text: &[u8]) -> Result<TextBuf, NoMemory> {
    unit(alloc, parse_full(alloc, text))
}

fn unit(alloc: Global, read: Result<Unit, Fault>) -> Result<TextBuf, NoMemory> {
    match read {
        Ok(unit) => print_unit(alloc, &unit),
        Err(fault) => refused(alloc, fault, b"u"),
    }
}

/// What both grammars say, once where they say the same.
fn tell_both(alloc: Global, text: &[u8], out: &mut TextBuf) -> Result<(), NoMemory> {
    let user = user(alloc, text)?;
    let full = full(alloc, text)?;
    if user.rows() == full.rows() {
        return tell_text(out, user.rows());
    }
    tell_line(out, b"(user)")?;
    tell_text(out, user.rows())?;
    tell_line(out, b"(full)")?;
    tell_text(out, full.rows())
}
