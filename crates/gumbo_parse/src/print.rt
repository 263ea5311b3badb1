//! Printing expressions.

ghost use Rattle.std.specs.Prelude.{◌≡◌, ◌++◌, map, OnOk};
ghost use Rattle.std.specs.List.{flat_map};
ghost use Rattle.gumbo_parse.specs.Allowed.{AreAllowed};
ghost use Rattle.gumbo_parse.specs.ExpressionTokens.{expression_tokens, selector_tokens};
ghost use Rattle.gumbo_parse.specs.Printing.{expression_text, selector_text};

use crate::expression::{Expression, Selector};
use crate::level::Level;
use crate::print_compound::{
    print_before, print_must_send, print_quantified, print_unary, print_value,
};
use crate::print_pieces::{close, open, print_infix, print_truth};
use hw_text::{NoMemory, TextBuf};

impl Expression {
    /// Appends the canonical text of the expression, in parentheses where its place wants a tighter
    /// one, and with a space before a minus that stands right behind another.
    #[cycle(printer)]
    pub fn print(&self, out: &mut TextBuf, wanted: Level, after_minus: bool) -> Result<(), NoMemory>
        ensures text { OnOk result (out.new ≡ out.old ++ expression_text self.now wanted after_minus) }
        ensures allowed { OnOk result (AreAllowed (expression_tokens self.now wanted)) }
    {
        match self {
            Expression::Number(_, number) => number.print(out),
            Expression::Truth(_, truth) => print_truth(out, *truth),
            Expression::Value(named, parts) => print_value(out, named, parts.rows()),
            Expression::Before(_, named, parts) => print_before(out, named, parts.rows()),
            Expression::Test(_, test, named) => {
                named.print_in_parentheses(out, test.word().spelling().as_bytes())
            }
            Expression::MustSend(_, named, _, sent) => print_must_send(out, named, sent.get()),
            Expression::Unary(_, operator, operand) => {
                print_unary(out, *operator, operand.get(), wanted, after_minus)
            }
            Expression::Binary(_, operator, left, right) => {
                let level = operator.level();
                let grouped = level.is_looser(wanted);
                open(out, grouped)?;
                left.get().print(out, level.left(), false)?;
                print_infix(out, *operator)?;
                right.get().print(out, level.right(), false)?;
                close(out, grouped)
            }
            Expression::Quantified {
                quantifier,
                variable,
                from,
                below,
                body,
                ..
            } => print_quantified(out, *quantifier, variable, from, below, body.get()),
        }
    }
}

impl Selector {
    #[cycle(printer)]
    fn print(&self, out: &mut TextBuf) -> Result<(), NoMemory>
        ensures text { OnOk result (out.new ≡ out.old ++ selector_text self.now) }
        ensures allowed { OnOk result (AreAllowed (selector_tokens self.now)) }
    {
        match self {
            Selector::Field(named) => {
                out.word(b".")?;
                out.word(named.name.rows())
            }
            Selector::Index(_, index) => {
                out.word(b"[")?;
                index.print(out, Level::Implication, false)?;
                out.word(b"]")
            }
        }
    }
}

/// Appends each of the fields and indexes behind a name.
#[cycle(printer)]
pub fn print_parts(parts: &[Selector], out: &mut TextBuf) -> Result<(), NoMemory>
    ensures text { OnOk result (out.new ≡ out.old ++ flat_map (λ t. t) (map selector_text parts.now)) }
    ensures allowed { OnOk result (AreAllowed (flat_map (λ ts. ts) (map selector_tokens parts.now))) }
{
    for part in parts {
        part.print(out)?;
    }
    Ok(())
}
