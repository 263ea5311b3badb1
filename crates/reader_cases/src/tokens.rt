//! The tokens of models and of C, each behind its place, and where and why they end.

use aadl_parse::Stop;
use case_files::{tell_integer, tell_number, tell_place};
use hw_text::{NoMemory, TextBuf};
use std::alloc::Global;

/// `L:C TOKEN L:C TOKEN .. L:C STOP`
pub fn of_model(alloc: Global, text: &[u8], out: &mut TextBuf) -> Result<(), NoMemory> {
    let read = aadl_parse::read_tokens(alloc, text)?;
    for placed in read.tokens.rows() {
        tell_place(out, placed.place)?;
        out.word(b" ")?;
        tell_model_token(out, &placed.token)?;
        out.word(b" ")?;
    }
    tell_place(out, read.end)?;
    out.word(match read.stop {
        Stop::End => b" end",
        Stop::BadByte => b" bad byte",
        Stop::BadToken => b" bad token",
    })?;
    out.newline()
}

fn tell_model_token(out: &mut TextBuf, token: &aadl_tree::Token) -> Result<(), NoMemory> {
    use aadl_tree::Token;

    match token {
        Token::Name(name) => tell_kind(out, b"name ", name.rows()),
        Token::Word(word) => out.word(word.spelling().as_bytes()),
        Token::Integer(integer) => {
            out.word(b"integer ")?;
            tell_integer(out, integer.value())
        }
        Token::Real(real) => tell_kind(out, b"real ", real.rows()),
        Token::Text(text) => tell_kind(out, b"text ", text.rows()),
        Token::SpoiltText(plain) => {
            out.word(b"spoilt ")?;
            out.number(*plain as i128)
        }
        Token::Annex(text) => tell_kind(out, b"annex ", text.rows()),
        Token::Mark(mark) => out.word(mark.spelling().as_bytes()),
    }
}

/// `L:C TOKEN L:C TOKEN .. L:C left COUNT`, with the number of bytes that are left.
pub fn of_c(alloc: Global, text: &[u8], out: &mut TextBuf) -> Result<(), NoMemory> {
    let read = c_parse::read_tokens(alloc, text)?;
    for placed in read.tokens.rows() {
        tell_place(out, placed.place)?;
        out.word(b" ")?;
        tell_c_token(out, &placed.token)?;
        out.word(b" ")?;
    }
    tell_place(out, read.end)?;
    tell_number(out, b" left", read.rest.len() as i128)
}

fn tell_c_token(out: &mut TextBuf, token: &c_parse::Token) -> Result<(), NoMemory> {
    use c_parse::Token;

    match token {
        Token::Name(name) => tell_kind(out, b"name ", name.rows()),
        Token::Keyword(word) => tell_kind(out, b"word ", word.spelling().as_bytes()),
        Token::Reserved(word) => tell_kind(out, b"reserved ", word.rows()),
        Token::Literal(literal) => tell_kind(out, b"literal ", literal.rows()),
        Token::Mark(mark) => out.word(mark.spelling().as_bytes()),
    }
}

fn tell_kind(out: &mut TextBuf, kind: &[u8], text: &[u8]) -> Result<(), NoMemory> {
    out.word(kind)?;
    out.word(text)
}
