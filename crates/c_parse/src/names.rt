//! Names, which a reader may have passed already.

ghost use Rattle.std.specs.Prelude.{◌≡◌, false, IfOk, IfNone};
ghost use Rattle.hw_text.specs.Reading.{Reads, Anything, begins};
ghost use Rattle.c_parse.specs.Values.{is_name};
ghost use Rattle.c_parse.specs.ExpressionGrammar.{Name};
ghost use Rattle.c_parse.specs.PartGrammar.{from_name};

use crate::leaf::{Terminal, read_one};
use crate::terminals::NameAt;
use crate::token::Token;
use c_tree::Named;
use hw_text::{Cursor, NoMemory, Placed, ReadFault};
use std::alloc::Global;

/// Whether a name is ahead.
pub fn stands_name(tokens: &Cursor<'_, Placed<Token>>) -> bool
    ensures { result ≡ begins is_name tokens.now }
{
    match tokens.peek() {
        Some(token) => matches!(&token.token, Token::Name(_)),
        None => false,
    }
}

/// Passes the name that is ahead, if one is.
pub fn pass_name(
    alloc: Global,
    tokens: &mut Cursor<'_, Placed<Token>>,
) -> Result<Option<Named>, NoMemory>
    ensures same { IfOk result (λ passed. tokens.old ≡ from_name passed tokens.new) }
    ensures none { IfOk result (λ passed. IfNone passed (begins is_name tokens.old ≡ false)) }
{
    let Some(token) = tokens.peek() else {
        return Ok(None);
    };
    let found = NameAt::value(alloc, token)?;
    if found.is_some() {
        tokens.pass();
    }
    Ok(found)
}

/// The name that was passed, or else that which is read.
pub fn name(
    alloc: Global,
    tokens: &mut Cursor<'_, Placed<Token>>,
    passed: Option<Named>,
) -> Result<Named, ReadFault>
    ensures { Reads Name Anything (from_name passed tokens.old) tokens.new result }
{
    match passed {
        Some(name) => Ok(name),
        None => read_one::<NameAt>(alloc, tokens),
    }
}
