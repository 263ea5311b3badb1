//! The readers of what lvalues begin with, and of other pieces of expressions that have no expressions in them.

ghost use Rattle.std.specs.Prelude.{◌≡◌};
ghost use Rattle.hw_text.specs.Reading.{Reads, Anything, BeginsWithout, begins};
ghost use Rattle.c_parse.specs.declared.mark.Mark.TheVariants as mark;
ghost use Rattle.c_parse.specs.Values.{is_literal, is_mark};
ghost use Rattle.c_parse.specs.Operators.{is_part, is_unary};
ghost use Rattle.c_parse.specs.ExpressionGrammar.{SpellsBase};
ghost use Rattle.c_parse.specs.PartGrammar.{from_name, SpellsNumber, SpellsTruth, SpellsNamedBase, SpellsPointed, SpellsPointedBase, SpellsTarget};

use crate::leaf::{read_one, sign, stands_in_full};
use crate::mark::Mark;
use crate::names::name;
use crate::terminals::{IntegerAt, LiteralAt, NameAt, TruthAt};
use crate::token::Token;
use c_tree::{Base, Dialect, Expression, IntegerType, Named};
use hw_text::{Cursor, Place, Placed, ReadFault};
use std::alloc::Global;

/// Whether what leads to a part of a value is ahead.
pub fn stands_part(tokens: &Cursor<'_, Placed<Token>>) -> bool
    ensures { result ≡ begins is_part tokens.now }
{
    match tokens.peek() {
        Some(token) => matches!(&token.token, Token::Mark(Mark::Dot | Mark::OpenBracket)),
        None => false,
    }
}

/// Whether a literal is ahead.
pub fn stands_literal(tokens: &Cursor<'_, Placed<Token>>) -> bool
    ensures { result ≡ begins is_literal tokens.now }
{
    match tokens.peek() {
        Some(token) => matches!(&token.token, Token::Literal(_)),
        None => false,
    }
}

/// Whether an operator before an operand is ahead.
pub fn stands_unary(tokens: &Cursor<'_, Placed<Token>>) -> bool
    ensures { result ≡ begins is_unary tokens.now }
{
    match tokens.peek() {
        Some(token) => matches!(
            &token.token,
            Token::Mark(Mark::Minus | Mark::Bang | Mark::Tilde)
        ),
        None => false,
    }
}

pub fn number(
    alloc: Global,
    tokens: &mut Cursor<'_, Placed<Token>>,
) -> Result<Expression, ReadFault>
    ensures { Reads SpellsNumber Anything tokens.old tokens.new result }
{
    let literal = read_one::<LiteralAt>(alloc, tokens)?;
    Ok(Expression::Number {
        start: literal.place,
        literal,
    })
}

pub fn truth(alloc: Global, tokens: &mut Cursor<'_, Placed<Token>>) -> Result<Expression, ReadFault>
    ensures { Reads SpellsTruth Anything tokens.old tokens.new result }
{
    let (start, value) = read_one::<TruthAt>(alloc, tokens)?;
    Ok(Expression::Truth { start, value })
}

/// Reads what stands behind the `(` of a cast, up to its `)`.
pub fn target(
    alloc: Global,
    tokens: &mut Cursor<'_, Placed<Token>>,
) -> Result<(Place, IntegerType), ReadFault>
    ensures { Reads SpellsTarget Anything tokens.old tokens.new result }
{
    let class = read_one::<IntegerAt>(alloc, tokens)?;
    sign(tokens, Mark::CloseParenthesis)?;
    Ok(class)
}

/// Reads what stands behind the `(` of a pointer, up to its `)`.
pub fn pointed(alloc: Global, tokens: &mut Cursor<'_, Placed<Token>>) -> Result<Named, ReadFault>
    ensures { Reads SpellsPointed Anything tokens.old tokens.new result }
{
    sign(tokens, Mark::Star)?;
    let pointer = read_one::<NameAt>(alloc, tokens)?;
    sign(tokens, Mark::CloseParenthesis)?;
    Ok(pointer)
}

/// Reads a name, and in full the member that an arrow leads to.
fn named_base(
    alloc: Global,
    tokens: &mut Cursor<'_, Placed<Token>>,
    dialect: Dialect,
    passed: Option<Named>,
) -> Result<Base, ReadFault>
    ensures { Reads (SpellsNamedBase dialect) (BeginsWithout (is_mark mark.Arrow)) (from_name passed tokens.old) tokens.new result }
{
    let first = name(alloc, tokens, passed)?;
    if !stands_in_full(tokens, dialect, Mark::Arrow) {
        return Ok(Base::Variable(first));
    }
    sign(tokens, Mark::Arrow)?;
    let member = read_one::<NameAt>(alloc, tokens)?;
    Ok(Base::Member(first, member))
}

/// Reads a pointer in parentheses, and what it points to is meant.
fn pointed_base(alloc: Global, tokens: &mut Cursor<'_, Placed<Token>>) -> Result<Base, ReadFault>
    ensures { Reads SpellsPointedBase Anything tokens.old tokens.new result }
{
    let start = sign(tokens, Mark::OpenParenthesis)?;
    let pointer = pointed(alloc, tokens)?;
    Ok(Base::Pointed(start, pointer))
}

/// Reads what an lvalue begins with.
pub fn base(
    alloc: Global,
    tokens: &mut Cursor<'_, Placed<Token>>,
    dialect: Dialect,
    passed: Option<Named>,
) -> Result<Base, ReadFault>
    ensures { Reads (SpellsBase dialect) (BeginsWithout (is_mark mark.Arrow)) (from_name passed tokens.old) tokens.new result }
{
    if passed.is_some() {
        return named_base(alloc, tokens, dialect, passed);
    }
    if stands_in_full(tokens, dialect, Mark::OpenParenthesis) {
        return pointed_base(alloc, tokens);
    }
    named_base(alloc, tokens, dialect, None)
}
