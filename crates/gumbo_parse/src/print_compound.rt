//! Printing the forms of expressions that have expressions in them, wherever they stand.

ghost use Rattle.std.specs.Prelude.{◌≡◌, Bool, ◌++◌, OnOk};
ghost use Rattle.hw_text.specs.declared.place.Place.{Place};
ghost use Rattle.gumbo_parse.specs.declared.expression.Expression.TheVariants as expression;
ghost use Rattle.gumbo_parse.specs.declared.level.Level.{Level};
ghost use Rattle.gumbo_parse.specs.Allowed.{AreAllowed};
ghost use Rattle.gumbo_parse.specs.ExpressionTokens.{expression_tokens};
ghost use Rattle.gumbo_parse.specs.Printing.{expression_text};

use crate::expression::{Bound, Expression, Named, Selector};
use crate::level::Level;
use crate::operator::{Quantifier, UnaryOperator};
use crate::print::print_parts;
use crate::print_pieces::{close, is_minus, open, print_asked, print_quantification, print_sign};
use hw_text::{NoMemory, TextBuf};

/// Appends a name, with what leads to a part of its value.
#[cycle(printer)]
pub fn print_value(out: &mut TextBuf, named: &Named, parts: &[Selector]) -> Result<(), NoMemory>
    ensures text { (wanted : Level) (after_minus : Bool) → OnOk result (out.new ≡ out.old ++ expression_text (expression.Value named.now parts.now) wanted after_minus) }
    ensures allowed { (wanted : Level) → OnOk result (AreAllowed (expression_tokens (expression.Value named.now parts.now) wanted)) }
{
    out.word(named.name.rows())?;
    print_parts(parts, out)
}

/// Appends what asks for a value before the entry point, with what leads to a part of it.
#[cycle(printer)]
pub fn print_before(out: &mut TextBuf, named: &Named, parts: &[Selector]) -> Result<(), NoMemory>
    ensures text { (at : Place) (wanted : Level) (after_minus : Bool) → OnOk result (out.new ≡ out.old ++ expression_text (expression.Before at named.now parts.now) wanted after_minus) }
    ensures allowed { (at : Place) (wanted : Level) → OnOk result (AreAllowed (expression_tokens (expression.Before at named.now parts.now) wanted)) }
{
    named.print_in_parentheses(out, b"In")?;
    print_parts(parts, out)
}

/// Appends what a port must send.
#[cycle(printer)]
pub fn print_must_send(out: &mut TextBuf, named: &Named, sent: &Expression) -> Result<(), NoMemory>
    ensures text { (at start : Place) (wanted : Level) (after_minus : Bool) → OnOk result (out.new ≡ out.old ++ expression_text (expression.MustSend at named.now start sent.now) wanted after_minus) }
    ensures allowed { (at start : Place) (wanted : Level) → OnOk result (AreAllowed (expression_tokens (expression.MustSend at named.now start sent.now) wanted)) }
{
    print_asked(out, named)?;
    sent.print(out, Level::Implication, false)?;
    out.word(b")")
}

/// Appends an operator and its operand, in parentheses where their place wants something tighter.
#[cycle(printer)]
pub fn print_unary(
    out: &mut TextBuf,
    operator: UnaryOperator,
    operand: &Expression,
    wanted: Level,
    after_minus: bool,
) -> Result<(), NoMemory>
    ensures text { (at : Place) → OnOk result (out.new ≡ out.old ++ expression_text (expression.Unary at operator operand.now) wanted after_minus) }
    ensures allowed { (at : Place) → OnOk result (AreAllowed (expression_tokens (expression.Unary at operator operand.now) wanted)) }
{
    let level = operator.level();
    let grouped = level.is_looser(wanted);
    open(out, grouped)?;
    print_sign(out, operator, after_minus)?;
    operand.print(out, level, is_minus(operator))?;
    close(out, grouped)
}

/// Appends what holds for the numbers of a range, in its parentheses.
#[cycle(printer)]
pub fn print_quantified(
    out: &mut TextBuf,
    quantifier: Quantifier,
    variable: &Named,
    from: &Bound,
    below: &Bound,
    body: &Expression,
) -> Result<(), NoMemory>
    ensures text { (at start : Place) (wanted : Level) (after_minus : Bool) → OnOk result (out.new ≡ out.old ++ expression_text (expression.Quantified at quantifier variable.now from.now below.now start body.now) wanted after_minus) }
    ensures allowed { (at start : Place) (wanted : Level) → OnOk result (AreAllowed (expression_tokens (expression.Quantified at quantifier variable.now from.now below.now start body.now) wanted)) }
{
    print_quantification(out, quantifier, variable, from, below)?;
    body.print(out, Level::Implication, false)?;
    out.word(b")")
}
