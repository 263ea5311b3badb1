//! Operators with their right operands.

use crate::expression::Expression;
use crate::operator::BinaryOperator;
use hw_text::Place;

/// What stands behind an operand: an operator, and another operand.
#[derive(Drop)]
pub struct Operation {
    pub place: Place,
    pub operator: BinaryOperator,
    pub operand: Expression,
}
