//! Reading the fields and indexes behind a name.

ghost use Rattle.hw_text.specs.Reading.{Reads, Anything};
ghost use Rattle.gumbo_parse.specs.Grammar.{SpellsParts, SpellsPart, SpellsIndex};
ghost use Rattle.gumbo_parse.specs.Levels.{part_shapes};
ghost use Rattle.gumbo_parse.specs.Values.{Without};

use crate::expression::Selector;
use crate::leaves::read_field;
use crate::levels::read_started;
use crate::mark::Mark;
use crate::shape::Shape;
use crate::token::Token;
use hw_reading::{stands, stands_either, symbol};
use hw_text::{Cursor, Placed, ReadFault, Rows};
use std::alloc::Global;

/// Reads the fields and indexes behind a name.
#[cycle(reader)]
pub fn read_parts(
    alloc: Global,
    tokens: &mut Cursor<'_, Placed<Token>>,
) -> Result<Rows<Selector>, ReadFault>
    ensures { Reads SpellsParts (Without part_shapes) tokens.old tokens.new result }
{
    let mut parts = Rows::new(alloc);
    'parts: while stands_either(
        tokens,
        Shape::Mark(Mark::Dot),
        Shape::Mark(Mark::OpenBracket),
    ) {
        let part = read_part(alloc, tokens)?;
        parts.push(part)?;
    }
    Ok(parts)
}

/// Reads a field or an index.
#[cycle(reader)]
fn read_part(alloc: Global, tokens: &mut Cursor<'_, Placed<Token>>) -> Result<Selector, ReadFault>
    ensures { Reads SpellsPart Anything tokens.old tokens.new result }
{
    if stands(tokens, Shape::Mark(Mark::Dot)) {
        return read_field(alloc, tokens);
    }
    read_index(alloc, tokens)
}

/// Reads an index in brackets.
#[cycle(reader)]
fn read_index(alloc: Global, tokens: &mut Cursor<'_, Placed<Token>>) -> Result<Selector, ReadFault>
    ensures { Reads SpellsIndex Anything tokens.old tokens.new result }
{
    symbol(tokens, Shape::Mark(Mark::OpenBracket))?;
    let (start, index) = read_started(alloc, tokens)?;
    symbol(tokens, Shape::Mark(Mark::CloseBracket))?;
    Ok(Selector::Index(start, index))
}
