//! Printing the pieces of expressions that have no expressions in them.

ghost use Rattle.std.specs.Prelude.{◌≡◌, ◌++◌, ◌∷◌, [], codes, pos, OnOk};
ghost use Rattle.std.specs.Fmt.{signed_decimal};
ghost use Rattle.gumbo_parse.specs.declared.token.Token.TheVariants as token;
ghost use Rattle.gumbo_parse.specs.Allowed.{IsAllowed, AreAllowed};
ghost use Rattle.gumbo_parse.specs.ExpressionTokens.{bound_tokens, quantification_tokens};
ghost use Rattle.gumbo_parse.specs.Operators.{binary_text};
ghost use Rattle.gumbo_parse.specs.Printing.{truth_text, bound_text, in_parentheses_text, opening, closing, sign_text, is_minus, quantifier_text, range_text};

use crate::expression::{Bound, Named};
use crate::operator::{BinaryOperator, Quantifier, UnaryOperator};
use hw_reading::Integer;
use hw_text::{NoMemory, TextBuf};

impl Named {
    /// Appends the word, and the name in parentheses.
    pub fn print_in_parentheses(&self, out: &mut TextBuf, word: &[u8]) -> Result<(), NoMemory>
        ensures text { OnOk result (out.new ≡ out.old ++ in_parentheses_text word.now self.now) }
        ensures allowed { OnOk result (IsAllowed (token.Name self.now.name)) }
    {
        out.word(word)?;
        out.word(b"(")?;
        out.word(self.name.rows())?;
        out.word(b")")
    }
}

impl Bound {
    fn print(&self, out: &mut TextBuf) -> Result<(), NoMemory>
        ensures text { OnOk result (out.new ≡ out.old ++ bound_text self.now) }
        ensures allowed { OnOk result (IsAllowed (token.Number self.now.number)) }
    {
        if self.negative {
            out.word(b"-")?;
        }
        self.number.print(out)
    }
}

pub fn print_truth(out: &mut TextBuf, truth: bool) -> Result<(), NoMemory>
    ensures { OnOk result (out.new ≡ out.old ++ truth_text truth) }
{
    out.word(if truth { b"true" } else { b"false" })
}

pub fn open(out: &mut TextBuf, grouped: bool) -> Result<(), NoMemory>
    ensures { OnOk result (out.new ≡ out.old ++ opening grouped) }
{
    if grouped { out.word(b"(") } else { Ok(()) }
}

pub fn close(out: &mut TextBuf, grouped: bool) -> Result<(), NoMemory>
    ensures { OnOk result (out.new ≡ out.old ++ closing grouped) }
{
    if grouped { out.word(b")") } else { Ok(()) }
}

/// Appends the operator that stands before an operand.
pub fn print_sign(
    out: &mut TextBuf,
    operator: UnaryOperator,
    after_minus: bool,
) -> Result<(), NoMemory>
    ensures { OnOk result (out.new ≡ out.old ++ sign_text operator after_minus) }
{
    match operator {
        UnaryOperator::Not => out.word(b"not "),
        UnaryOperator::Minus if after_minus => out.word(b" -"),
        UnaryOperator::Minus => out.word(b"-"),
    }
}

pub fn is_minus(operator: UnaryOperator) -> bool
    ensures { result ≡ is_minus operator }
{
    match operator {
        UnaryOperator::Not => false,
        UnaryOperator::Minus => true,
    }
}

/// Appends an operator between operands.
pub fn print_infix(out: &mut TextBuf, operator: BinaryOperator) -> Result<(), NoMemory>
    ensures { OnOk result (out.new ≡ out.old ++ (codes " " ++ binary_text operator ++ codes " ")) }
{
    out.word(b" ")?;
    out.word(operator.text().as_bytes())?;
    out.word(b" ")
}

/// Appends what stands before the value that a port must send.
pub fn print_asked(out: &mut TextBuf, named: &Named) -> Result<(), NoMemory>
    ensures text { OnOk result (out.new ≡ out.old ++ (codes "MustSend(" ++ named.now.name ++ codes ", ")) }
    ensures allowed { OnOk result (IsAllowed (token.Name named.now.name)) }
{
    out.word(b"MustSend(")?;
    out.word(named.name.rows())?;
    out.word(b", ")
}

/// Appends what stands before the body of a quantifier.
pub fn print_quantification(
    out: &mut TextBuf,
    quantifier: Quantifier,
    variable: &Named,
    from: &Bound,
    below: &Bound,
) -> Result<(), NoMemory>
    ensures text { OnOk result (out.new ≡ out.old ++ (quantifier_text quantifier variable.now ++ range_text from.now below.now)) }
    ensures allowed { OnOk result (AreAllowed (quantification_tokens quantifier variable.now from.now below.now)) }
{
    print_quantifier(out, quantifier, variable)?;
    from.print(out)?;
    out.word(b" ..< ")?;
    below.print(out)?;
    out.word(b": ")
}

/// Appends what stands before the range of a quantifier.
fn print_quantifier(
    out: &mut TextBuf,
    quantifier: Quantifier,
    variable: &Named,
) -> Result<(), NoMemory>
    ensures text { OnOk result (out.new ≡ out.old ++ quantifier_text quantifier variable.now) }
    ensures allowed { OnOk result (IsAllowed (token.Name variable.now.name)) }
{
    out.word(b"(")?;
    out.word(quantifier.word().spelling().as_bytes())?;
    out.word(b" ")?;
    out.word(variable.name.rows())?;
    out.word(b" in ")
}
