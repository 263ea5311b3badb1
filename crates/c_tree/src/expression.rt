//! Expressions, as trees.

use crate::integer_type::IntegerType;
use crate::named::{Literal, Named};
use crate::operator::{BinaryOperator, UnaryOperator};
use hw_text::{Boxed, Place, Rows};

/// Where an lvalue begins: a variable, what a pointer points to, or a member of that.
#[derive(Debug, Drop)]
pub enum Base {
    Variable(Named),
    /// `(*p)`, and where its `(` stands.
    Pointed(Place, Named),
    /// `p->m`
    Member(Named, Named),
}

/// What leads from a value to a part of it.
#[cycle(expression)]
#[derive(Debug, Drop)]
pub enum Selector {
    Member(Named),
    Index(Expression),
}

/// What a value can be read from, and given to.
#[cycle(expression)]
#[derive(Debug, Drop)]
pub struct Lvalue {
    pub base: Base,
    pub parts: Rows<Selector>,
}

/// An expression. Parentheses are no part of it: binary operators have two operands. `start` is
/// where its first token stands, its `(` where it is in parentheses.
#[cycle(expression)]
#[derive(Debug, Drop)]
pub enum Expression {
    Number {
        start: Place,
        literal: Literal,
    },
    Truth {
        start: Place,
        value: bool,
    },
    /// The value of a variable or an enumerator, or a part of it.
    Value {
        start: Place,
        lvalue: Lvalue,
    },
    Unary {
        start: Place,
        operator: UnaryOperator,
        /// Where the operator stands.
        place: Place,
        operand: Boxed<Expression>,
    },
    Cast {
        start: Place,
        target: IntegerType,
        /// Where its `(` stands.
        place: Place,
        operand: Boxed<Expression>,
    },
    Binary {
        start: Place,
        operator: BinaryOperator,
        /// Where the operator stands.
        place: Place,
        left: Boxed<Expression>,
        right: Boxed<Expression>,
    },
}

/// What is handed to a function.
#[derive(Debug, Drop)]
pub enum Argument {
    /// The address of a variable, and where the `&` stands.
    Address(Place, Named),
    Value(Expression),
}

/// A call of a function by its name.
#[derive(Debug, Drop)]
pub struct Call {
    pub name: Named,
    pub arguments: Rows<Argument>,
}

/// What gives a value to a variable, a condition or a return: a call, or an expression without one.
#[derive(Debug, Drop)]
pub enum RightSide {
    Call(Call),
    Value(Expression),
}
