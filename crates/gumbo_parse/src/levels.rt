//! Reading expressions, level by level.

ghost use Rattle.std.specs.Prelude.{◌≡◌, true, IfOk};
ghost use Rattle.hw_text.specs.Reading.{Reads, begins};
ghost use Rattle.hw_reading.specs.Shapes.{shapes_of};
ghost use Rattle.gumbo_parse.specs.declared.level.Form.TheVariants as form;
ghost use Rattle.gumbo_parse.specs.declared.level.Level.TheVariants as level;
ghost use Rattle.gumbo_parse.specs.Grammar.{Spells, SpellsOperation, SpellsStarted, applied, start_of};
ghost use Rattle.gumbo_parse.specs.Levels.{Ends, form_of, right, infixes};
ghost use Rattle.gumbo_parse.specs.Values.{one_of};

use crate::expression::Expression;
use crate::level::{Form, Level};
use crate::operands::read_operand;
use crate::operation::Operation;
use crate::operators::{read_infix, read_prefix, stands_infix, stands_prefix};
use crate::token::Token;
use hw_text::{Boxed, Cursor, NoMemory, Place, Placed, ReadFault};
use std::alloc::Global;

/// Reads an expression of the level.
#[cycle(reader)]
pub fn read_level(
    alloc: Global,
    tokens: &mut Cursor<'_, Placed<Token>>,
    level: Level,
) -> Result<Expression, ReadFault>
    ensures { Reads (Spells level) (Ends level) tokens.old tokens.new result }
{
    match level.form() {
        Form::Chain => read_chain(alloc, tokens, level),
        Form::Pair => read_pair(alloc, tokens, level),
        Form::Prefix => read_prefixed(alloc, tokens, level),
        Form::Operand => read_operand(alloc, tokens),
    }
}

/// Reads operands of the next level, with operators between them that group to the left.
#[cycle(reader)]
fn read_chain(
    alloc: Global,
    tokens: &mut Cursor<'_, Placed<Token>>,
    level: Level,
) -> Result<Expression, ReadFault>
    requires { form_of level ≡ form.Chain }
    ensures { Reads (Spells level) (Ends level) tokens.old tokens.new result }
{
    let mut left = read_level(alloc, tokens, level.next())?;
    'operations: while stands_infix(tokens, level) {
        let operation = read_operation(alloc, tokens, level)?;
        left = applied(alloc, left, operation)?;
    }
    Ok(left)
}

/// Reads an operand of the next level, and maybe an operator and another operand.
#[cycle(reader)]
fn read_pair(
    alloc: Global,
    tokens: &mut Cursor<'_, Placed<Token>>,
    level: Level,
) -> Result<Expression, ReadFault>
    requires { form_of level ≡ form.Pair }
    ensures { Reads (Spells level) (Ends level) tokens.old tokens.new result }
{
    let left = read_level(alloc, tokens, level.next())?;
    if !stands_infix(tokens, level) {
        return Ok(left);
    }
    let operation = read_operation(alloc, tokens, level)?;
    let both = applied(alloc, left, operation)?;
    Ok(both)
}

/// Reads operators and their operand.
#[cycle(reader)]
fn read_prefixed(
    alloc: Global,
    tokens: &mut Cursor<'_, Placed<Token>>,
    level: Level,
) -> Result<Expression, ReadFault>
    requires { form_of level ≡ form.Prefix }
    ensures { Reads (Spells level) (Ends level) tokens.old tokens.new result }
{
    if stands_prefix(tokens, level) {
        let (place, operator) = read_prefix(tokens, level)?;
        let operand = read_prefixed(alloc, tokens, level)?;
        let operand = Boxed::new(alloc, operand)?;
        return Ok(Expression::Unary(place, operator, operand));
    }
    read_level(alloc, tokens, level.next())
}

/// Reads the operator ahead, and the operand behind it.
#[cycle(reader)]
fn read_operation(
    alloc: Global,
    tokens: &mut Cursor<'_, Placed<Token>>,
    level: Level,
) -> Result<Operation, ReadFault>
    requires { begins (one_of (shapes_of (infixes level))) tokens.old ≡ true }
    ensures { Reads (SpellsOperation level) (Ends (right level)) tokens.old tokens.new result }
{
    let (place, operator) = read_infix(tokens, level)?;
    let operand = read_level(alloc, tokens, level.right())?;
    Ok(Operation {
        place,
        operator,
        operand,
    })
}

/// Reads a whole expression, and where it begins.
#[cycle(reader)]
pub fn read_started(
    alloc: Global,
    tokens: &mut Cursor<'_, Placed<Token>>,
) -> Result<(Place, Expression), ReadFault>
    ensures { Reads SpellsStarted (Ends level.Implication) tokens.old tokens.new result }
{
    let start = start_of(tokens);
    let expression = read_level(alloc, tokens, Level::Implication)?;
    Ok((start, expression))
}

/// Where the token ahead stands.
fn start_of(tokens: &Cursor<'_, Placed<Token>>) -> Place
    ensures { result ≡ start_of tokens.now }
{
    match tokens.peek() {
        Some(placed) => placed.place,
        None => Place::NONE,
    }
}

/// The operation on what stands before it.
fn applied(alloc: Global, left: Expression, operation: Operation) -> Result<Expression, NoMemory>
    ensures { IfOk result (λ e. e ≡ applied left operation) }
{
    let left = Boxed::new(alloc, left)?;
    let right = Boxed::new(alloc, operation.operand)?;
    Ok(Expression::Binary(operation.place, operation.operator, left, right))
}
