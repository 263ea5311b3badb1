//! Making expressions of their parts.

ghost use Rattle.std.specs.Prelude.{◌≡◌, IfOk};
ghost use Rattle.c_tree.specs.declared.expression.Expression.TheVariants.{Value, Unary, Cast, Binary};
ghost use Rattle.c_tree.specs.Starts.{start_of_base, start_in, started_at, value_of};
ghost use Rattle.c_tree.specs.Unplaced.{origin, unplaced_expression, unplaced_lvalue};

use crate::expression::{Base, Expression, Lvalue};
use crate::integer_type::IntegerType;
use crate::operator::{BinaryOperator, UnaryOperator};
use hw_text::{Boxed, NoMemory, Place};
use std::alloc::Global;

impl Base {
    /// Where it begins.
    pub fn start(&self) -> Place
        ensures { result ≡ start_of_base self.now }
    {
        match self {
            Base::Variable(name) => name.place,
            Base::Pointed(place, _) => *place,
            Base::Member(name, _) => name.place,
        }
    }
}

impl Expression {
    /// What is read from an lvalue.
    pub fn of_lvalue(lvalue: Lvalue) -> Expression
        ensures exact { result ≡ value_of lvalue }
        ensures bare { unplaced_expression result ≡ Value origin (unplaced_lvalue lvalue) }
    {
        Expression::Value {
            start: lvalue.base.start(),
            lvalue,
        }
    }

    /// Where it begins.
    pub fn start(&self) -> Place
        ensures { result ≡ start_in self.now }
    {
        match self {
            Expression::Number { start, .. }
            | Expression::Truth { start, .. }
            | Expression::Value { start, .. }
            | Expression::Unary { start, .. }
            | Expression::Cast { start, .. }
            | Expression::Binary { start, .. } => *start,
        }
    }

    /// The same expression, in parentheses that begin there.
    pub fn started_at(self, place: Place) -> Expression
        ensures exact { result ≡ started_at place self }
        ensures bare { unplaced_expression result ≡ unplaced_expression self }
    {
        match self {
            Expression::Number { literal, .. } => Expression::Number {
                start: place,
                literal,
            },
            Expression::Truth { value, .. } => Expression::Truth {
                start: place,
                value,
            },
            Expression::Value { lvalue, .. } => Expression::Value {
                start: place,
                lvalue,
            },
            Expression::Unary {
                operator,
                place: at,
                operand,
                ..
            } => Expression::Unary {
                start: place,
                operator,
                place: at,
                operand,
            },
            Expression::Cast {
                target,
                place: at,
                operand,
                ..
            } => Expression::Cast {
                start: place,
                target,
                place: at,
                operand,
            },
            Expression::Binary {
                operator,
                place: at,
                left,
                right,
                ..
            } => Expression::Binary {
                start: place,
                operator,
                place: at,
                left,
                right,
            },
        }
    }

    /// An operator that stands there, and its operand.
    pub fn unary(
        alloc: Global,
        place: Place,
        operator: UnaryOperator,
        operand: Expression,
    ) -> Result<Expression, NoMemory>
        ensures exact { IfOk result (λ e. e ≡ Unary place operator place operand) }
        ensures bare { IfOk result (λ e. unplaced_expression e ≡ Unary origin operator origin (unplaced_expression operand)) }
    {
        Ok(Expression::Unary {
            start: place,
            operator,
            place,
            operand: Boxed::new(alloc, operand)?,
        })
    }

    /// A cast of which the `(` stands there.
    pub fn cast(
        alloc: Global,
        place: Place,
        target: IntegerType,
        operand: Expression,
    ) -> Result<Expression, NoMemory>
        ensures exact { IfOk result (λ e. e ≡ Cast place target place operand) }
        ensures bare { IfOk result (λ e. unplaced_expression e ≡ Cast origin target origin (unplaced_expression operand)) }
    {
        Ok(Expression::Cast {
            start: place,
            target,
            place,
            operand: Boxed::new(alloc, operand)?,
        })
    }

    /// An operator that stands there, between its operands.
    pub fn binary(
        alloc: Global,
        left: Expression,
        place: Place,
        operator: BinaryOperator,
        right: Expression,
    ) -> Result<Expression, NoMemory>
        ensures exact { IfOk result (λ e. e ≡ Binary (start_in left) operator place left right) }
        ensures bare { IfOk result (λ e. unplaced_expression e ≡ Binary origin operator origin (unplaced_expression left) (unplaced_expression right)) }
    {
        Ok(Expression::Binary {
            start: left.start(),
            operator,
            place,
            left: Boxed::new(alloc, left)?,
            right: Boxed::new(alloc, right)?,
        })
    }
}
