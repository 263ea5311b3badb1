//! The readers of calls, and of what stands on the right.

ghost use Rattle.std.specs.Prelude.{◌≡◌, ◌∷◌};
ghost use Rattle.hw_text.specs.Reading.{Reads, Anything, BeginsWith};
ghost use Rattle.c_parse.specs.declared.mark.Mark.TheVariants as mark;
ghost use Rattle.c_parse.specs.Levels.{loosest_level};
ghost use Rattle.c_parse.specs.Operators.{Ends, RightEnds};
ghost use Rattle.c_parse.specs.Values.{name_token, is_mark};
ghost use Rattle.c_parse.specs.CallGrammar.{BehindComma, Separated, SpellsArgument, SpellsCall, SpellsRightSide};

use crate::expression_levels::of_level;
use crate::expressions::expression;
use crate::leaf::{read_one, sign, stands};
use crate::mark::Mark;
use crate::names::pass_name;
use crate::operators::LOOSEST_LEVEL;
use crate::terminals::NameAt;
use crate::token::Token;
use c_tree::{Argument, Call, Dialect, Named, RightSide};
use hw_text::{Cursor, Placed, ReadFault, Rows};
use std::alloc::Global;

/// Reads an argument.
pub fn argument(
    alloc: Global,
    tokens: &mut Cursor<'_, Placed<Token>>,
    dialect: Dialect,
) -> Result<Argument, ReadFault>
    ensures { Reads (SpellsArgument dialect) (Ends loosest_level) tokens.old tokens.new result }
{
    if stands(tokens, Mark::Ampersand) {
        let place = sign(tokens, Mark::Ampersand)?;
        let variable = read_one::<NameAt>(alloc, tokens)?;
        return Ok(Argument::Address(place, variable));
    }
    let value = expression(alloc, tokens, dialect)?;
    Ok(Argument::Value(value))
}

/// Reads an argument behind a comma.
fn next_argument(
    alloc: Global,
    tokens: &mut Cursor<'_, Placed<Token>>,
    dialect: Dialect,
) -> Result<Argument, ReadFault>
    ensures { Reads (BehindComma (SpellsArgument dialect)) (Ends loosest_level) tokens.old tokens.new result }
{
    sign(tokens, Mark::Comma)?;
    let next = argument(alloc, tokens, dialect)?;
    Ok(next)
}

/// Reads the arguments of a call, which end before a `)`.
fn arguments(
    alloc: Global,
    tokens: &mut Cursor<'_, Placed<Token>>,
    dialect: Dialect,
) -> Result<Rows<Argument>, ReadFault>
    ensures { Reads (Separated (SpellsArgument dialect)) (BeginsWith (is_mark mark.CloseParenthesis)) tokens.old tokens.new result }
{
    let mut read = Rows::new(alloc);
    if stands(tokens, Mark::CloseParenthesis) {
        return Ok(read);
    }
    let first = argument(alloc, tokens, dialect)?;
    read.push(first)?;
    'arguments: while stands(tokens, Mark::Comma) {
        let next = next_argument(alloc, tokens, dialect)?;
        read.push(next)?;
    }
    Ok(read)
}

/// Reads a call whose name was passed.
pub fn call_behind(
    alloc: Global,
    tokens: &mut Cursor<'_, Placed<Token>>,
    dialect: Dialect,
    name: Named,
) -> Result<Call, ReadFault>
    ensures { Reads (SpellsCall dialect) Anything (name_token name ∷ tokens.old) tokens.new result }
{
    sign(tokens, Mark::OpenParenthesis)?;
    let arguments = arguments(alloc, tokens, dialect)?;
    sign(tokens, Mark::CloseParenthesis)?;
    Ok(Call { name, arguments })
}

/// Reads what stands on the right: a call, or an expression.
pub fn right_side(
    alloc: Global,
    tokens: &mut Cursor<'_, Placed<Token>>,
    dialect: Dialect,
) -> Result<RightSide, ReadFault>
    ensures { Reads (SpellsRightSide dialect) RightEnds tokens.old tokens.new result }
{
    let passed = pass_name(alloc, tokens)?;
    let Some(name) = passed else {
        let value = expression(alloc, tokens, dialect)?;
        return Ok(RightSide::Value(value));
    };
    if stands(tokens, Mark::OpenParenthesis) {
        let call = call_behind(alloc, tokens, dialect, name)?;
        return Ok(RightSide::Call(call));
    }
    let value = of_level(alloc, tokens, dialect, LOOSEST_LEVEL, Some(name))?;
    Ok(RightSide::Value(value))
}
