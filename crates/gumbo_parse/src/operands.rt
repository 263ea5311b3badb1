//! Reading operands: what stands between operators.

ghost use Rattle.std.specs.Prelude.{◌∷◌};
ghost use Rattle.hw_text.specs.Reading.{Reads, Anything};
ghost use Rattle.gumbo_parse.specs.declared.shape.Shape.TheVariants as shape;
ghost use Rattle.gumbo_parse.specs.declared.level.Level.TheVariants as level;
ghost use Rattle.gumbo_parse.specs.declared.mark.Mark.TheVariants as mark;
ghost use Rattle.gumbo_parse.specs.Grammar.{SpellsOperand, SpellsValue, SpellsBefore, SpellsMustSend, SpellsSent};
ghost use Rattle.gumbo_parse.specs.Levels.{goes_on, part_shapes};
ghost use Rattle.gumbo_parse.specs.Values.{Without};

use crate::expression::Expression;
use crate::groups::read_parenthesised;
use crate::leaves::{read_number, read_test, read_truth};
use crate::levels::read_started;
use crate::mark::Mark;
use crate::operator::PortTest;
use crate::ports::{asked, before_entry};
use crate::selectors::read_parts;
use crate::shape::Shape;
use crate::tables::{TESTS, TRUTHS};
use crate::terminals::NameAt;
use crate::token::Token;
use crate::word::Word;
use hw_reading::{read_one, stands, stands_either, stands_listed, symbol};
use hw_text::{Boxed, Cursor, Place, Placed, ReadFault};
use std::alloc::Global;

/// Reads an operand that has no operator of its own.
#[cycle(reader)]
pub fn read_operand(
    alloc: Global,
    tokens: &mut Cursor<'_, Placed<Token>>,
) -> Result<Expression, ReadFault>
    ensures { Reads SpellsOperand (Without part_shapes) tokens.old tokens.new result }
{
    if stands(tokens, Shape::Number) {
        return read_number(alloc, tokens);
    }
    if stands_listed(tokens, &TRUTHS) {
        return read_truth(tokens);
    }
    if stands_listed(tokens, &TESTS) {
        return read_test(alloc, tokens);
    }
    if stands_either(tokens, Shape::Name, Shape::BasePackage) {
        return read_value(alloc, tokens);
    }
    if stands(tokens, Shape::Word(Word::In)) {
        return read_before(alloc, tokens);
    }
    if stands(tokens, Shape::Word(Word::MustSend)) {
        return read_must_send(alloc, tokens);
    }
    read_parenthesised(alloc, tokens)
}

/// Reads a name, with what stands behind it.
#[cycle(reader)]
fn read_value(
    alloc: Global,
    tokens: &mut Cursor<'_, Placed<Token>>,
) -> Result<Expression, ReadFault>
    ensures { Reads SpellsValue (Without part_shapes) tokens.old tokens.new result }
{
    let named = read_one::<NameAt>(alloc, tokens)?;
    let parts = read_parts(alloc, tokens)?;
    Ok(Expression::Value(named, parts))
}

/// Reads a value before the entry point, with what stands behind it.
#[cycle(reader)]
fn read_before(
    alloc: Global,
    tokens: &mut Cursor<'_, Placed<Token>>,
) -> Result<Expression, ReadFault>
    ensures { Reads SpellsBefore (Without part_shapes) tokens.old tokens.new result }
{
    let (place, named) = before_entry(alloc, tokens)?;
    let parts = read_parts(alloc, tokens)?;
    Ok(Expression::Before(place, named, parts))
}

/// Reads what a port must send.
#[cycle(reader)]
fn read_must_send(
    alloc: Global,
    tokens: &mut Cursor<'_, Placed<Token>>,
) -> Result<Expression, ReadFault>
    ensures { Reads SpellsMustSend Anything tokens.old tokens.new result }
{
    let (place, port) = asked(alloc, tokens)?;
    let sent = read_sent(alloc, tokens)?;
    symbol(tokens, Shape::Mark(Mark::CloseParenthesis))?;
    match sent {
        Some((start, value)) => {
            let value = Boxed::new(alloc, value)?;
            Ok(Expression::MustSend(place, port, start, value))
        }
        None => Ok(Expression::Test(place, PortTest::MustSend, port)),
    }
}

/// Reads a value behind a comma, where one is there.
#[cycle(reader)]
fn read_sent(
    alloc: Global,
    tokens: &mut Cursor<'_, Placed<Token>>,
) -> Result<Option<(Place, Expression)>, ReadFault>
    ensures { Reads SpellsSent (Without (shape.Mark mark.Comma ∷ goes_on level.Implication)) tokens.old tokens.new result }
{
    if !stands(tokens, Shape::Mark(Mark::Comma)) {
        return Ok(None);
    }
    symbol(tokens, Shape::Mark(Mark::Comma))?;
    let sent = read_started(alloc, tokens)?;
    Ok(Some(sent))
}
