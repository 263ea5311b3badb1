//! Why a text is no model: the refusal of each failure.

ghost use Rattle.std.specs.Prelude.{◌≡◌, ◌+◌, IfOk};
ghost use Rattle.aadl_parse.specs.LeftOut.{is_left_out_name};
ghost use Rattle.std.specs.Str.{bytes_eq};
ghost use Rattle.aadl_parse.specs.Refusals.{plain, named, limit, too_long, unexpected, behind_quote, flawed, stopped};

use crate::flaw::{DEEPEST, Flaw};
use crate::stop::Stop;
use aadl_tree::Token;
use hw_text::{Code, NoMemory, Place, Refusal, TextBuf};
use std::alloc::Global;

/// How many bytes a model may have.
pub const LARGEST: usize = 1_048_576;

/// A text of more bytes than a model may have.
pub fn too_long(alloc: Global, bytes: usize) -> Result<Refusal, NoMemory>
    ensures { IfOk result (λ r. r ≡ too_long bytes) }
{
    limit(alloc, "bytes", Place::START, bytes, LARGEST)
}

/// A token with which no model goes on.
pub fn unexpected(alloc: Global, token: &Token, place: Place) -> Result<Refusal, NoMemory>
    ensures { IfOk result (λ r. r ≡ unexpected token.now place) }
{
    match token {
        Token::Word(word) => {
            if word.is_left_out() {
                named(
                    alloc,
                    Code::ModelUnsupported,
                    place,
                    word.spelling().as_bytes(),
                )
            } else {
                Ok(plain(alloc, Code::ModelSyntax, place))
            }
        }
        Token::Name(name) => {
            if is_left_out_name(name.rows()) {
                named(alloc, Code::ModelUnsupported, place, name.rows())
            } else {
                Ok(plain(alloc, Code::ModelSyntax, place))
            }
        }
        _ => Ok(plain(alloc, Code::ModelSyntax, place)),
    }
}

/// A token with which models go on, and with which something is wrong.
pub fn flawed(alloc: Global, place: Place, flaw: Flaw) -> Result<Refusal, NoMemory>
    ensures { IfOk result (λ r. r ≡ flawed place flaw) }
{
    match flaw {
        Flaw::TooDeep => limit(alloc, "nesting", place, DEEPEST + 1, DEEPEST),
        Flaw::BadByte(plain_bytes) => Ok(plain(
            alloc,
            Code::ModelBadByte,
            behind_quote(place, plain_bytes),
        )),
    }
}

/// The end of the tokens, where they are no model.
pub fn stopped(alloc: Global, stop: Stop, place: Place) -> Refusal
    ensures { result ≡ stopped stop place }
{
    let code = match stop {
        Stop::End => Code::ModelSyntax,
        Stop::BadByte => Code::ModelBadByte,
        Stop::BadToken => Code::ModelBadToken,
    };
    plain(alloc, code, place)
}

/// Whether the name stands for what the profile leaves out.
#[tactic(auto, unfolding(crate::specs::LeftOut::is_left_out_name))]
fn is_left_out_name(name: &[u8]) -> bool
    ensures { result ≡ is_left_out_name name.now }
{
    is_word(name, "float")
        || is_word(name, "float_32")
        || is_word(name, "float_64")
        || is_word(name, "integer")
        || is_word(name, "natural")
        || is_word(name, "character")
        || is_word(name, "string")
}

fn is_word(name: &[u8], word: &str) -> bool
    ensures { result ≡ bytes_eq name.now word.now }
{
    name == word.as_bytes()
}

/// The place so many bytes behind the quote that stands at a place.
fn behind_quote(place: Place, bytes: usize) -> Place
    ensures { result ≡ behind_quote place bytes }
{
    let further = u32::try_from(bytes).unwrap_or(u32::MAX);
    Place {
        line: place.line,
        column: place.column.saturating_add(1).saturating_add(further),
    }
}

fn plain(alloc: Global, code: Code, place: Place) -> Refusal
    ensures { result ≡ plain code place }
{
    Refusal {
        code,
        place,
        word: TextBuf::new(alloc),
        low: 0,
        high: 0,
        length: 0,
    }
}

fn named(alloc: Global, code: Code, place: Place, name: &[u8]) -> Result<Refusal, NoMemory>
    ensures { IfOk result (λ r. r ≡ named code place name.now) }
{
    let mut word = TextBuf::new(alloc);
    word.word(name)?;
    Ok(Refusal {
        code,
        place,
        word,
        low: 0,
        high: 0,
        length: 0,
    })
}

fn limit(
    alloc: Global,
    kind: &str,
    place: Place,
    counted: usize,
    allowed: usize,
) -> Result<Refusal, NoMemory>
    ensures { IfOk result (λ r. r ≡ limit kind.now place counted allowed) }
{
    let mut word = TextBuf::new(alloc);
    word.word(kind.as_bytes())?;
    Ok(Refusal {
        code: Code::ModelLimit,
        place,
        word,
        low: counted as i128,
        high: allowed as i128,
        length: 0,
    })
}
