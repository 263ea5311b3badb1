//! Expressions, as trees.

use crate::identifier::Identifier;
use crate::operator::{BinaryOperator, PortTest, Quantifier, UnaryOperator};
use hw_reading::Integer;
use hw_text::{Boxed, Place, Rows};

/// A name, and where it stands.
#[derive(Drop)]
pub struct Named {
    pub name: Identifier,
    pub place: Place,
}

/// An end of the range of a quantifier: a whole number, maybe behind a minus.
#[derive(Drop)]
pub struct Bound {
    pub negative: bool,
    pub number: Integer,
    /// Where the number stands.
    pub place: Place,
}

/// What stands behind a name, and leads to a part of its value.
#[cycle(expression)]
#[derive(Drop)]
pub enum Selector {
    Field(Named),
    /// The index, and where its first token stands.
    Index(Place, Expression),
}

/// An expression. Parentheses are no part of it: binary operators have two operands. The place of a number
/// or a truth value is its own, and that of a unary or binary expression is its operator's.
#[cycle(expression)]
#[derive(Drop)]
pub enum Expression {
    Number(Place, Integer),
    Truth(Place, bool),
    /// The value of a name, or a part of it.
    Value(Named, Rows<Selector>),
    /// The value before the entry point, as in `In(x)`; its place is that of the word.
    Before(Place, Named, Rows<Selector>),
    /// What is asked of a port; its place is that of the word.
    Test(Place, PortTest, Named),
    /// Whether a port must send this value: the word's place, the port, and the first token's place
    /// and the value.
    MustSend(Place, Named, Place, Boxed<Expression>),
    Unary(Place, UnaryOperator, Boxed<Expression>),
    Binary(Place, BinaryOperator, Boxed<Expression>, Boxed<Expression>),
    /// What holds for all or for some numbers of a range.
    Quantified {
        /// Where the word stands.
        place: Place,
        quantifier: Quantifier,
        variable: Named,
        from: Bound,
        below: Bound,
        /// Where the first token of the body stands.
        body_place: Place,
        body: Boxed<Expression>,
    },
}
