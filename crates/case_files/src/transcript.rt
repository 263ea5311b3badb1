//! A case file, with the answers below its questions.

use crate::answerer::Answerer;
use crate::bytes::cut;
use crate::context::Context;
use crate::line::Line;
use crate::question::Question;
use crate::telling::{tell_answer, tell_line, tell_number, tell_size};
use crate::trouble::Trouble;
use hw_text::{NoMemory, TextBuf};
use std::alloc::Global;

/// Appends the lines of a text, and the answers to its questions.
pub fn show_text<A: Answerer>(
    alloc: Global,
    answerer: &mut A,
    text: &[u8],
    out: &mut TextBuf,
) -> Result<(), NoMemory> {
    answerer.begin(alloc)?;
    let mut context = Context::new(alloc);
    let mut asked = None;
    let mut number: u64 = 0;
    let mut rest = text;
    while let Some((line, behind)) = cut(rest, b'\n') {
        number = number.saturating_add(1);
        asked = show_line(alloc, answerer, &mut context, asked, number, line, out)?;
        rest = behind;
    }
    show_answer(alloc, answerer, &mut context, asked, out)
}

/// Appends a line, and before it the answer to the question above where the line does not belong
/// to that. Gives the question to which the next line may belong.
fn show_line<A: Answerer>(
    alloc: Global,
    answerer: &mut A,
    context: &mut Context,
    asked: Option<Question>,
    number: u64,
    line: &[u8],
    out: &mut TextBuf,
) -> Result<Option<Question>, NoMemory> {
    match (Line::of(line), asked) {
        (Line::Piece(sign, rest), Some(mut question)) => {
            tell_line(out, line)?;
            add_piece(alloc, context, &mut question, number, sign, rest, out)?;
            Ok(Some(question))
        }
        (kind, asked) => {
            show_answer(alloc, answerer, context, asked, out)?;
            tell_line(out, line)?;
            begin(alloc, answerer, context, kind, number, out)
        }
    }
}

/// Does what a line says that belongs to no question above.
fn begin<A: Answerer>(
    alloc: Global,
    answerer: &mut A,
    context: &mut Context,
    kind: Line<'_>,
    number: u64,
    out: &mut TextBuf,
) -> Result<Option<Question>, NoMemory> {
    match kind {
        Line::Blank => Ok(None),
        Line::Shows => {
            context.begin(alloc);
            answerer.begin(alloc)?;
            Ok(None)
        }
        Line::Asks(word, head) => Ok(Some(Question::new(alloc, number, word, head)?)),
        Line::Piece(..) | Line::Bad => {
            tell_trouble(out, Trouble::BadLine, number)?;
            Ok(None)
        }
    }
}

fn add_piece(
    alloc: Global,
    context: &Context,
    question: &mut Question,
    number: u64,
    sign: u8,
    rest: &[u8],
    out: &mut TextBuf,
) -> Result<(), NoMemory> {
    if let Err(trouble) = question.text.add(alloc, &context.texts, sign, rest) {
        question.is_spoilt = true;
        tell_trouble(out, trouble, number)?;
    }
    Ok(())
}

/// Appends the answer to a question, if there is one.
fn show_answer<A: Answerer>(
    alloc: Global,
    answerer: &mut A,
    context: &mut Context,
    asked: Option<Question>,
    out: &mut TextBuf,
) -> Result<(), NoMemory> {
    let Some(question) = asked else {
        return Ok(());
    };
    if question.is_spoilt {
        return Ok(());
    }
    if question.text.is_open() {
        return tell_trouble(out, Trouble::BadLine, question.number);
    }
    let mut told = TextBuf::new(alloc);
    match answered(alloc, answerer, context, &question, &mut told) {
        Ok(true) if context.is_brief => tell_size(out, told.rows()),
        Ok(true) => tell_answer(out, told.rows()),
        Ok(false) => tell_trouble(out, Trouble::BadLine, question.number),
        Err(trouble) => tell_trouble(out, trouble, question.number),
    }
}

/// Whether the question is one of those that every program knows, or of this one's.
fn answered<A: Answerer>(
    alloc: Global,
    answerer: &mut A,
    context: &mut Context,
    question: &Question,
    out: &mut TextBuf,
) -> Result<bool, Trouble> {
    Ok(context.hears(alloc, question)? || answerer.answer(alloc, context, question, out)?)
}

fn tell_trouble(out: &mut TextBuf, trouble: Trouble, number: u64) -> Result<(), NoMemory> {
    match trouble {
        Trouble::BadLine => tell_number(out, b"    bad case line", i128::from(number)),
        Trouble::NoMemory => tell_line(out, b"    no memory"),
    }
}
