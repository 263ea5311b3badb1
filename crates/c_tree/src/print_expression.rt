//! Printing expressions.

ghost use Rattle.std.specs.Prelude.{◌≡◌, ◌++◌, map, OnOk, true};
ghost use Rattle.std.specs.List.{flat_map};
ghost use Rattle.c_tree.specs.Expressions.{opening, closing, unary_sign, position_behind, base_text, expression_text, selector_text, lvalue_text};

use crate::expression::{Base, Expression, Lvalue, Selector};
use crate::operator::UnaryOperator;
use crate::print_type::print_truth;
use hw_text::{NoMemory, TextBuf};

/// Where an expression stands.
#[derive(Clone, Copy)]
pub enum Position {
    Whole,
    Operand,
    /// As the operand of a minus.
    BehindMinus,
}

impl Expression {
    #[cycle(printer)]
    pub fn print(&self, out: &mut TextBuf, position: Position) -> Result<(), NoMemory>
        ensures { OnOk result (out.new ≡ out.old ++ expression_text self.now position) }
    {
        match self {
            Expression::Number { literal, .. } => out.word(literal.numeral.rows()),
            Expression::Truth { value, .. } => print_truth(out, *value),
            Expression::Value { lvalue, .. } => lvalue.print(out),
            Expression::Unary {
                operator,
                operand,
                ..
            } => {
                print_sign(out, *operator, position)?;
                operand.get().print(out, position_behind(*operator))
            }
            Expression::Cast {
                target,
                operand,
                ..
            } => {
                out.word(b"(")?;
                out.word(target.spelling().as_bytes())?;
                out.word(b")")?;
                operand.get().print(out, Position::Operand)
            }
            Expression::Binary {
                operator,
                left,
                right,
                ..
            } => {
                open(out, position)?;
                left.get().print(out, Position::Operand)?;
                out.word(b" ")?;
                out.word(operator.spelling().as_bytes())?;
                out.word(b" ")?;
                right.get().print(out, Position::Operand)?;
                close(out, position)
            }
        }
    }
}

impl Lvalue {
    #[cycle(printer)]
    pub fn print(&self, out: &mut TextBuf) -> Result<(), NoMemory>
        ensures { OnOk result (out.new ≡ out.old ++ lvalue_text self.now) }
    {
        self.base.print(out)?;
        for part in self.parts.rows() {
            part.print(out)?;
        }
        Ok(())
    }
}

impl Selector {
    #[cycle(printer)]
    fn print(&self, out: &mut TextBuf) -> Result<(), NoMemory>
        ensures { OnOk result (out.new ≡ out.old ++ selector_text self.now) }
    {
        match self {
            Selector::Member(named) => {
                out.word(b".")?;
                out.word(named.name.rows())
            }
            Selector::Index(index) => {
                out.word(b"[")?;
                index.print(out, Position::Whole)?;
                out.word(b"]")
            }
        }
    }
}

impl Base {
    fn print(&self, out: &mut TextBuf) -> Result<(), NoMemory>
        ensures { OnOk result (out.new ≡ out.old ++ base_text self.now) }
    {
        match self {
            Base::Variable(named) => out.word(named.name.rows()),
            Base::Pointed(_, named) => {
                out.word(b"(*")?;
                out.word(named.name.rows())?;
                out.word(b")")
            }
            Base::Member(named, member) => {
                out.word(named.name.rows())?;
                out.word(b"->")?;
                out.word(member.name.rows())
            }
        }
    }
}

/// Appends what stands before a binary operation.
fn open(out: &mut TextBuf, position: Position) -> Result<(), NoMemory>
    ensures { OnOk result (out.new ≡ out.old ++ opening position) }
{
    match position {
        Position::Whole => Ok(()),
        Position::Operand | Position::BehindMinus => out.word(b"("),
    }
}

/// Appends what stands behind a binary operation.
fn close(out: &mut TextBuf, position: Position) -> Result<(), NoMemory>
    ensures { OnOk result (out.new ≡ out.old ++ closing position) }
{
    match position {
        Position::Whole => Ok(()),
        Position::Operand | Position::BehindMinus => out.word(b")"),
    }
}

/// Appends the operator that stands before an operand.
fn print_sign(
    out: &mut TextBuf,
    operator: UnaryOperator,
    position: Position,
) -> Result<(), NoMemory>
    ensures { OnOk result (out.new ≡ out.old ++ unary_sign operator position) }
{
    match (operator, position) {
        (UnaryOperator::Minus, Position::BehindMinus) => out.word(b" -"),
        _ => out.word(operator.spelling().as_bytes()),
    }
}

fn position_behind(operator: UnaryOperator) -> Position
    ensures { result ≡ position_behind operator }
{
    match operator {
        UnaryOperator::Minus => Position::BehindMinus,
        UnaryOperator::Not | UnaryOperator::Complement => Position::Operand,
    }
}
