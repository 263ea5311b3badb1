//! The readers of what local variables begin with, and of conditions.

ghost use Rattle.hw_text.specs.Reading.{Reads, Anything};
ghost use Rattle.c_parse.specs.Operators.{RightEnds};
ghost use Rattle.c_parse.specs.PlainGrammar.{SpellsZeroArray, SpellsLocalValue, SpellsCondition};

use crate::calls::right_side;
use crate::initials::zeros;
use crate::leaf::{read_one, sign, stands};
use crate::mark::Mark;
use crate::terminals::LiteralAt;
use crate::token::Token;
use c_tree::{Dialect, LocalValue, RightSide};
use hw_text::{Cursor, Placed, ReadFault};
use std::alloc::Global;

/// Reads what a local array begins with.
fn zero_array(
    alloc: Global,
    tokens: &mut Cursor<'_, Placed<Token>>,
) -> Result<LocalValue, ReadFault>
    ensures { Reads SpellsZeroArray Anything tokens.old tokens.new result }
{
    sign(tokens, Mark::OpenBracket)?;
    let length = read_one::<LiteralAt>(alloc, tokens)?;
    sign(tokens, Mark::CloseBracket)?;
    sign(tokens, Mark::Assign)?;
    zeros(alloc, tokens)?;
    Ok(LocalValue::ZeroArray(length))
}

/// Reads what a local variable begins with.
pub fn local_value(
    alloc: Global,
    tokens: &mut Cursor<'_, Placed<Token>>,
    dialect: Dialect,
) -> Result<LocalValue, ReadFault>
    ensures { Reads (SpellsLocalValue dialect) RightEnds tokens.old tokens.new result }
{
    if stands(tokens, Mark::OpenBracket) {
        let array = zero_array(alloc, tokens)?;
        return Ok(array);
    }
    sign(tokens, Mark::Assign)?;
    if stands(tokens, Mark::OpenBrace) {
        zeros(alloc, tokens)?;
        return Ok(LocalValue::Zero);
    }
    let value = right_side(alloc, tokens, dialect)?;
    Ok(LocalValue::Given(value))
}

/// Reads a condition in its parentheses.
pub fn condition(
    alloc: Global,
    tokens: &mut Cursor<'_, Placed<Token>>,
    dialect: Dialect,
) -> Result<RightSide, ReadFault>
    ensures { Reads (SpellsCondition dialect) Anything tokens.old tokens.new result }
{
    sign(tokens, Mark::OpenParenthesis)?;
    let condition = right_side(alloc, tokens, dialect)?;
    sign(tokens, Mark::CloseParenthesis)?;
    Ok(condition)
}
