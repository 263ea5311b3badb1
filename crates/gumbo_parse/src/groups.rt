//! Reading what stands between parentheses.

ghost use Rattle.hw_text.specs.Reading.{Reads, Anything};
ghost use Rattle.gumbo_parse.specs.declared.level.Level.TheVariants as level;
ghost use Rattle.gumbo_parse.specs.Grammar.{SpellsParenthesised, SpellsGroup, SpellsQuantified};
ghost use Rattle.gumbo_parse.specs.Levels.{Ends};

use crate::bounds::quantification;
use crate::expression::Expression;
use crate::level::Level;
use crate::levels::{read_level, read_started};
use crate::mark::Mark;
use crate::shape::Shape;
use crate::tables::QUANTIFIERS;
use crate::token::Token;
use hw_reading::{stands_listed, symbol};
use hw_text::{Boxed, Cursor, Placed, ReadFault};
use std::alloc::Global;

/// Reads what stands between parentheses.
#[cycle(reader)]
pub fn read_parenthesised(
    alloc: Global,
    tokens: &mut Cursor<'_, Placed<Token>>,
) -> Result<Expression, ReadFault>
    ensures { Reads SpellsParenthesised Anything tokens.old tokens.new result }
{
    symbol(tokens, Shape::Mark(Mark::OpenParenthesis))?;
    let inner = read_group(alloc, tokens)?;
    symbol(tokens, Shape::Mark(Mark::CloseParenthesis))?;
    Ok(inner)
}

/// Reads an expression, or what holds for the numbers of a range.
#[cycle(reader)]
fn read_group(
    alloc: Global,
    tokens: &mut Cursor<'_, Placed<Token>>,
) -> Result<Expression, ReadFault>
    ensures { Reads SpellsGroup (Ends level.Implication) tokens.old tokens.new result }
{
    if stands_listed(tokens, &QUANTIFIERS) {
        return read_quantified(alloc, tokens);
    }
    read_level(alloc, tokens, Level::Implication)
}

/// Reads what holds for the numbers of a range.
#[cycle(reader)]
fn read_quantified(
    alloc: Global,
    tokens: &mut Cursor<'_, Placed<Token>>,
) -> Result<Expression, ReadFault>
    ensures { Reads SpellsQuantified (Ends level.Implication) tokens.old tokens.new result }
{
    let heading = quantification(alloc, tokens)?;
    let (body_place, body) = read_started(alloc, tokens)?;
    let body = Boxed::new(alloc, body)?;
    Ok(Expression::Quantified {
        place: heading.place,
        quantifier: heading.quantifier,
        variable: heading.variable,
        from: heading.from,
        below: heading.below,
        body_place,
        body,
    })
}
