//! Reading operands and parts that have no expressions in them.

ghost use Rattle.hw_text.specs.Reading.{Reads, Anything};
ghost use Rattle.gumbo_parse.specs.Grammar.{SpellsNumber, SpellsTruth, SpellsTest, SpellsField};

use crate::expression::{Expression, Selector};
use crate::mark::Mark;
use crate::ports::port;
use crate::shape::Shape;
use crate::tables::{TESTS, TRUTHS};
use crate::terminals::{NameAt, NumberAt};
use crate::token::Token;
use hw_reading::{read_listed, read_one, symbol};
use hw_text::{Cursor, Placed, ReadFault};
use std::alloc::Global;

/// Reads a whole number.
pub fn read_number(
    alloc: Global,
    tokens: &mut Cursor<'_, Placed<Token>>,
) -> Result<Expression, ReadFault>
    ensures { Reads SpellsNumber Anything tokens.old tokens.new result }
{
    let (place, number) = read_one::<NumberAt>(alloc, tokens)?;
    Ok(Expression::Number(place, number))
}

/// Reads `true` or `false`.
pub fn read_truth(tokens: &mut Cursor<'_, Placed<Token>>) -> Result<Expression, ReadFault>
    ensures { Reads SpellsTruth Anything tokens.old tokens.new result }
{
    let (place, truth) = read_listed(tokens, &TRUTHS)?;
    Ok(Expression::Truth(place, truth))
}

/// Reads what is asked of a port alone.
pub fn read_test(
    alloc: Global,
    tokens: &mut Cursor<'_, Placed<Token>>,
) -> Result<Expression, ReadFault>
    ensures { Reads SpellsTest Anything tokens.old tokens.new result }
{
    let (place, test) = read_listed(tokens, &TESTS)?;
    let named = port(alloc, tokens)?;
    Ok(Expression::Test(place, test, named))
}

/// Reads a field behind a dot.
pub fn read_field(
    alloc: Global,
    tokens: &mut Cursor<'_, Placed<Token>>,
) -> Result<Selector, ReadFault>
    ensures { Reads SpellsField Anything tokens.old tokens.new result }
{
    symbol(tokens, Shape::Mark(Mark::Dot))?;
    let named = read_one::<NameAt>(alloc, tokens)?;
    Ok(Selector::Field(named))
}
