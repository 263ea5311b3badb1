//! The names of ports and state variables behind words.

ghost use Rattle.hw_text.specs.Reading.{Reads, Anything};
ghost use Rattle.gumbo_parse.specs.Grammar.{SpellsPort, SpellsIn, SpellsAsked};

use crate::expression::Named;
use crate::mark::Mark;
use crate::shape::Shape;
use crate::terminals::NameAt;
use crate::token::Token;
use crate::word::Word;
use hw_reading::{read_one, symbol};
use hw_text::{Cursor, Place, Placed, ReadFault};
use std::alloc::Global;

/// Reads a name in parentheses.
pub fn port(alloc: Global, tokens: &mut Cursor<'_, Placed<Token>>) -> Result<Named, ReadFault>
    ensures { Reads SpellsPort Anything tokens.old tokens.new result }
{
    symbol(tokens, Shape::Mark(Mark::OpenParenthesis))?;
    let name = read_one::<NameAt>(alloc, tokens)?;
    symbol(tokens, Shape::Mark(Mark::CloseParenthesis))?;
    Ok(name)
}

/// Reads `In`, and a name in parentheses.
pub fn before_entry(
    alloc: Global,
    tokens: &mut Cursor<'_, Placed<Token>>,
) -> Result<(Place, Named), ReadFault>
    ensures { Reads SpellsIn Anything tokens.old tokens.new result }
{
    let place = symbol(tokens, Shape::Word(Word::In))?;
    let named = port(alloc, tokens)?;
    Ok((place, named))
}

/// Reads `MustSend`, and the name of its port behind a parenthesis.
pub fn asked(
    alloc: Global,
    tokens: &mut Cursor<'_, Placed<Token>>,
) -> Result<(Place, Named), ReadFault>
    ensures { Reads SpellsAsked Anything tokens.old tokens.new result }
{
    let place = symbol(tokens, Shape::Word(Word::MustSend))?;
    symbol(tokens, Shape::Mark(Mark::OpenParenthesis))?;
    let named = read_one::<NameAt>(alloc, tokens)?;
    Ok((place, named))
}
