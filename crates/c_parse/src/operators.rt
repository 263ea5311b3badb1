//! Operators between two operands.

ghost use Rattle.std.specs.Prelude.{◌≡◌};
ghost use Rattle.hw_text.specs.Reading.{ahead};
ghost use Rattle.c_parse.specs.Levels.{binary_level, prefix_level, loosest_level};
ghost use Rattle.c_parse.specs.Operators.{binary_of_mark, operator_in, binary_at};

use crate::mark::Mark;
use crate::token::Token;
use c_tree::BinaryOperator;
use hw_text::{Cursor, Place, Placed};

/// The level of prefix operators and casts, which bind tightest.
pub const PREFIX_LEVEL: u8 = 11;

/// The level of a whole expression.
pub const LOOSEST_LEVEL: u8 = 1;

fn binary_level(operator: BinaryOperator) -> u8
    ensures { result ≡ binary_level operator }
{
    match operator {
        BinaryOperator::Or => 1,
        BinaryOperator::And => 2,
        BinaryOperator::BitOr => 3,
        BinaryOperator::BitXor => 4,
        BinaryOperator::BitAnd => 5,
        BinaryOperator::Equal => 6,
        BinaryOperator::NotEqual => 6,
        BinaryOperator::Less => 7,
        BinaryOperator::LessOrEqual => 7,
        BinaryOperator::Greater => 7,
        BinaryOperator::GreaterOrEqual => 7,
        BinaryOperator::ShiftLeft => 8,
        BinaryOperator::ShiftRight => 8,
        BinaryOperator::Add => 9,
        BinaryOperator::Subtract => 9,
        BinaryOperator::Multiply => 10,
        BinaryOperator::Divide => 10,
        BinaryOperator::Remainder => 10,
    }
}

fn binary_of_mark(mark: Mark) -> Option<BinaryOperator>
    ensures { result ≡ binary_of_mark mark }
{
    match mark {
        Mark::Or => Some(BinaryOperator::Or),
        Mark::And => Some(BinaryOperator::And),
        Mark::Bar => Some(BinaryOperator::BitOr),
        Mark::Caret => Some(BinaryOperator::BitXor),
        Mark::Ampersand => Some(BinaryOperator::BitAnd),
        Mark::Equal => Some(BinaryOperator::Equal),
        Mark::NotEqual => Some(BinaryOperator::NotEqual),
        Mark::Less => Some(BinaryOperator::Less),
        Mark::LessOrEqual => Some(BinaryOperator::LessOrEqual),
        Mark::Greater => Some(BinaryOperator::Greater),
        Mark::GreaterOrEqual => Some(BinaryOperator::GreaterOrEqual),
        Mark::ShiftLeft => Some(BinaryOperator::ShiftLeft),
        Mark::ShiftRight => Some(BinaryOperator::ShiftRight),
        Mark::Plus => Some(BinaryOperator::Add),
        Mark::Minus => Some(BinaryOperator::Subtract),
        Mark::Star => Some(BinaryOperator::Multiply),
        Mark::Slash => Some(BinaryOperator::Divide),
        Mark::Percent => Some(BinaryOperator::Remainder),
        _ => None,
    }
}

fn operator_in(token: &Token) -> Option<BinaryOperator>
    ensures { result ≡ operator_in token.now }
{
    match token {
        Token::Mark(mark) => binary_of_mark(*mark),
        _ => None,
    }
}

/// The operator that the token is, if it is one of this level, and where it stands.
fn binary_at(token: &Placed<Token>, level: u8) -> Option<(Place, BinaryOperator)>
    ensures { result ≡ binary_at level token.now }
{
    match operator_in(&token.token) {
        Some(operator) if binary_level(operator) == level => Some((token.place, operator)),
        _ => None,
    }
}

/// The operator of this level that is ahead, and where it stands.
pub fn operator_ahead(
    tokens: &Cursor<'_, Placed<Token>>,
    level: u8,
) -> Option<(Place, BinaryOperator)>
    ensures { result ≡ ahead (binary_at level) tokens.now }
{
    match tokens.peek() {
        Some(token) => binary_at(token, level),
        None => None,
    }
}
