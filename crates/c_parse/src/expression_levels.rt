//! The readers of expressions of each level, and of lvalues.

ghost use Rattle.std.specs.Prelude.{◌≡◌, ◌≤◌};
ghost use Rattle.hw_text.specs.Reading.{Reads, Anything, BeginsWithout};
ghost use Rattle.c_parse.specs.Levels.{prefix_level};
ghost use Rattle.c_parse.specs.Operators.{Ends, is_selector};
ghost use Rattle.c_parse.specs.ExpressionGrammar.{SpellsExpression, SpellsPrefix, SpellsLvalue, SpellsParts};
ghost use Rattle.c_parse.specs.PartGrammar.{from_name, SpellsPart, SpellsPrefixed, SpellsOpened, SpellsValue};

use crate::bases::{
    base, number, pointed, stands_literal, stands_part, stands_unary, target, truth,
};
use crate::initials::stands_truth;
use crate::leaf::{read_one, sign, stands, stands_in_full};
use crate::mark::Mark;
use crate::operators::{LOOSEST_LEVEL, PREFIX_LEVEL, operator_ahead};
use crate::terminals::{NameAt, UnaryAt};
use crate::token::Token;
use crate::types::stands_integer;
use c_tree::{Base, Dialect, Expression, Lvalue, Named, Selector};
use hw_text::{Cursor, Placed, ReadFault, Rows};
use std::alloc::Global;

/// Reads an expression of this level, from a name on, if one was passed.
#[cycle(expressions)]
pub fn of_level(
    alloc: Global,
    tokens: &mut Cursor<'_, Placed<Token>>,
    dialect: Dialect,
    level: u8,
    passed: Option<Named>,
) -> Result<Expression, ReadFault>
    requires { level ≤ prefix_level }
    ensures { Reads (SpellsExpression dialect level) (Ends level) (from_name passed tokens.old) tokens.new result }
{
    if level == PREFIX_LEVEL {
        return operand_from(alloc, tokens, dialect, passed);
    }
    let mut left = of_level(alloc, tokens, dialect, level + 1, passed)?;
    'operations: while let Some((place, operator)) = operator_ahead(tokens, level) {
        tokens.pass();
        let right = of_level(alloc, tokens, dialect, level + 1, None)?;
        left = Expression::binary(alloc, left, place, operator, right)?;
    }
    Ok(left)
}

/// Reads an operand, with the operators before it, from a name on, if one was passed.
#[cycle(expressions)]
fn operand_from(
    alloc: Global,
    tokens: &mut Cursor<'_, Placed<Token>>,
    dialect: Dialect,
    passed: Option<Named>,
) -> Result<Expression, ReadFault>
    ensures { Reads (SpellsPrefix dialect) (Ends prefix_level) (from_name passed tokens.old) tokens.new result }
{
    if passed.is_some() {
        return value(alloc, tokens, dialect, passed);
    }
    operand(alloc, tokens, dialect)
}

/// Reads an operand, with the operators before it.
#[cycle(expressions)]
fn operand(
    alloc: Global,
    tokens: &mut Cursor<'_, Placed<Token>>,
    dialect: Dialect,
) -> Result<Expression, ReadFault>
    ensures { Reads (SpellsPrefix dialect) (Ends prefix_level) tokens.old tokens.new result }
{
    if stands(tokens, Mark::OpenParenthesis) {
        return opened(alloc, tokens, dialect);
    }
    if stands_unary(tokens) {
        return prefixed(alloc, tokens, dialect);
    }
    if stands_literal(tokens) {
        return number(alloc, tokens);
    }
    if stands_truth(tokens) {
        return truth(alloc, tokens);
    }
    value(alloc, tokens, dialect, None)
}

/// Reads an lvalue as an operand, from a name on, if one was passed.
#[cycle(expressions)]
fn value(
    alloc: Global,
    tokens: &mut Cursor<'_, Placed<Token>>,
    dialect: Dialect,
    passed: Option<Named>,
) -> Result<Expression, ReadFault>
    ensures { Reads (SpellsValue dialect) (BeginsWithout is_selector) (from_name passed tokens.old) tokens.new result }
{
    let lvalue = lvalue(alloc, tokens, dialect, passed)?;
    Ok(Expression::of_lvalue(lvalue))
}

/// Reads an operand that begins with an operator.
#[cycle(expressions)]
fn prefixed(
    alloc: Global,
    tokens: &mut Cursor<'_, Placed<Token>>,
    dialect: Dialect,
) -> Result<Expression, ReadFault>
    ensures { Reads (SpellsPrefixed dialect) (Ends prefix_level) tokens.old tokens.new result }
{
    let (place, operator) = read_one::<UnaryAt>(alloc, tokens)?;
    let inner = operand(alloc, tokens, dialect)?;
    Ok(Expression::unary(alloc, place, operator, inner)?)
}

/// Reads an operand that begins with a `(`: a cast, what a pointer points to, or an expression in parentheses.
#[cycle(expressions)]
fn opened(
    alloc: Global,
    tokens: &mut Cursor<'_, Placed<Token>>,
    dialect: Dialect,
) -> Result<Expression, ReadFault>
    ensures { Reads (SpellsOpened dialect) (Ends prefix_level) tokens.old tokens.new result }
{
    let start = sign(tokens, Mark::OpenParenthesis)?;
    if stands_integer(tokens) {
        let (_, class) = target(alloc, tokens)?;
        let inner = operand(alloc, tokens, dialect)?;
        return Ok(Expression::cast(alloc, start, class, inner)?);
    }
    if stands_in_full(tokens, dialect, Mark::Star) {
        let base = Base::Pointed(start, pointed(alloc, tokens)?);
        let parts = selectors(alloc, tokens, dialect)?;
        return Ok(Expression::of_lvalue(Lvalue { base, parts }));
    }
    let inner = of_level(alloc, tokens, dialect, LOOSEST_LEVEL, None)?;
    sign(tokens, Mark::CloseParenthesis)?;
    Ok(inner.started_at(start))
}

/// Reads an lvalue, from a name on, if one was passed.
#[cycle(expressions)]
pub fn lvalue(
    alloc: Global,
    tokens: &mut Cursor<'_, Placed<Token>>,
    dialect: Dialect,
    passed: Option<Named>,
) -> Result<Lvalue, ReadFault>
    ensures { Reads (SpellsLvalue dialect) (BeginsWithout is_selector) (from_name passed tokens.old) tokens.new result }
{
    let base = base(alloc, tokens, dialect, passed)?;
    let parts = selectors(alloc, tokens, dialect)?;
    Ok(Lvalue { base, parts })
}

/// Reads what leads to a part of a value.
#[cycle(expressions)]
fn selectors(
    alloc: Global,
    tokens: &mut Cursor<'_, Placed<Token>>,
    dialect: Dialect,
) -> Result<Rows<Selector>, ReadFault>
    ensures { Reads (SpellsParts dialect) (BeginsWithout is_selector) tokens.old tokens.new result }
{
    let mut parts = Rows::new(alloc);
    'parts: while stands_part(tokens) {
        let part = selector(alloc, tokens, dialect)?;
        parts.push(part)?;
    }
    Ok(parts)
}

#[cycle(expressions)]
fn selector(
    alloc: Global,
    tokens: &mut Cursor<'_, Placed<Token>>,
    dialect: Dialect,
) -> Result<Selector, ReadFault>
    ensures { Reads (SpellsPart dialect) Anything tokens.old tokens.new result }
{
    if stands(tokens, Mark::Dot) {
        sign(tokens, Mark::Dot)?;
        let member = read_one::<NameAt>(alloc, tokens)?;
        return Ok(Selector::Member(member));
    }
    sign(tokens, Mark::OpenBracket)?;
    let index = of_level(alloc, tokens, dialect, LOOSEST_LEVEL, None)?;
    sign(tokens, Mark::CloseBracket)?;
    Ok(Selector::Index(index))
}
