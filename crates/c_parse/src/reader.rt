//! Whole texts: from bytes to the unit that they are a text of, or to the first failure.

ghost use Rattle.std.specs.Prelude.{◌≡◌, ◌<◌, ℕ, true, false, Some, None, IfOk};
ghost use Rattle.hw_text.specs.WholeTexts.{IsAccepted, IsRejected, IfRefused, IsSound, FailsAt};
ghost use Rattle.c_tree.specs.declared.unit.Unit.{Unit as CUnit};
ghost use Rattle.c_tree.specs.Dialects.{is_user_unit, ranges_hold};
ghost use Rattle.c_tree.specs.Items.{unit_text};
ghost use Rattle.c_tree.specs.UnplacedUnits.{SameUnit};
ghost use Rattle.c_parse.specs.Flaws.{flaw_at};
ghost use Rattle.c_parse.specs.Printed.{IsWithinLimits};
ghost use Rattle.c_parse.specs.WholeUnits.{told_before, unit_rules, full_rules, user_rules};

use crate::flaw::Flawed;
use crate::flaws::{first_flawed, flawed};
use crate::lexer::read_tokens;
use crate::refusals::{LARGEST, too_long, unexpected_at};
use crate::token::Token;
use crate::whole::read_whole;
use c_tree::{Dialect, Unit};
use hw_text::{Fault, Lexed, NoMemory, Refusal, Whole};
use std::alloc::Global;

/// The unit of the full grammar that a text is a text of, or why it is none. Texts may be of any
/// size, and brackets may stand at any depth. What is printed of a unit of which each range holds is
/// read as the same unit, but for places.
pub fn parse_full(alloc: Global, bytes: &[u8]) -> Result<Unit, Fault>
    ensures accepted { IfOk result (λ unit. IsAccepted full_rules bytes.now unit) }
    ensures rejected { IfRefused result (λ refusal. IsRejected full_rules bytes.now refusal) }
    ensures ranges { IfOk result (λ unit. ranges_hold unit ≡ true) }
    ensures printed { (u : CUnit) → bytes.now ≡ unit_text u → ranges_hold u ≡ true → IfOk result (SameUnit u) × IfRefused result (λ refusal. ⊥) }
{
    read_text(alloc, bytes, Dialect::Full)
}

/// The unit of the grammar of users that a text is a text of, or why it is none: also where it has
/// more of something than a text of users may have. What is printed of a user's unit within these
/// limits is read as the same unit, but for places.
pub fn parse(alloc: Global, bytes: &[u8]) -> Result<Unit, Fault>
    ensures accepted { IfOk result (λ unit. IsAccepted user_rules bytes.now unit) }
    ensures rejected { IfRefused result (λ refusal. IsRejected user_rules bytes.now refusal) }
    ensures of_users { IfOk result (λ unit. is_user_unit unit ≡ true) }
    ensures printed { (u : CUnit) → bytes.now ≡ unit_text u → is_user_unit u ≡ true → IsWithinLimits u → IfOk result (SameUnit u) × IfRefused result (λ refusal. ⊥) }
{
    if bytes.len() > LARGEST {
        return Err(Fault::Refused(too_long(alloc, bytes.len())?));
    }
    read_text(alloc, bytes, Dialect::User)
}

/// Reads a text of which nothing is told before its tokens.
fn read_text(alloc: Global, bytes: &[u8], dialect: Dialect) -> Result<Unit, Fault>
    requires { told_before dialect bytes.now ≡ None }
    ensures accepted { IfOk result (λ unit. IsAccepted (unit_rules dialect) bytes.now unit) }
    ensures rejected { IfRefused result (λ refusal. IsRejected (unit_rules dialect) bytes.now refusal) }
{
    let lexed = read_tokens(alloc, bytes)?;
    read_lexed(alloc, &lexed, dialect)
}

/// Reads the tokens of a text, and what stands behind them. No more is read than stands before the
/// first flaw, so that readers of a text of users call themselves no deeper than its limits allow.
fn read_lexed(alloc: Global, lexed: &Lexed<'_, Token>, dialect: Dialect) -> Result<Unit, Fault>
    ensures read { IfOk result (λ unit. IsSound (unit_rules dialect) lexed.now.tokens lexed.now.end lexed.now.rest.now unit) }
    ensures refused { IfRefused result (λ refusal. (i : ℕ) × FailsAt (unit_rules dialect) lexed.now.tokens lexed.now.end lexed.now.rest.now i refusal) }
{
    match first_flawed(lexed.tokens.rows(), dialect) {
        Some(found) => Err(Fault::Refused(failure_before(alloc, lexed, dialect, found)?)),
        None => read_flawless(alloc, lexed, dialect),
    }
}

/// Reads tokens of which each is as it should be.
fn read_flawless(alloc: Global, lexed: &Lexed<'_, Token>, dialect: Dialect) -> Result<Unit, Fault>
    requires { (k : ℕ) → flaw_at dialect lexed.now.tokens k ≡ None }
    ensures read { IfOk result (λ unit. IsSound (unit_rules dialect) lexed.now.tokens lexed.now.end lexed.now.rest.now unit) }
    ensures refused { IfRefused result (λ refusal. (i : ℕ) × FailsAt (unit_rules dialect) lexed.now.tokens lexed.now.end lexed.now.rest.now i refusal) }
{
    match read_whole(alloc, lexed.tokens.rows(), dialect, lexed.end)? {
        Whole::Text(unit) => {
            let left = lexed.rest.len();
            if left == 0 {
                Ok(unit)
            } else {
                Err(Fault::Refused(unexpected_at(
                    alloc,
                    lexed,
                    dialect,
                    lexed.tokens.rows().len(),
                )?))
            }
        }
        Whole::Stuck(passed) => Err(Fault::Refused(unexpected_at(alloc, lexed, dialect, passed)?)),
    }
}

/// The first failure in tokens of which one has a flaw.
fn failure_before(
    alloc: Global,
    lexed: &Lexed<'_, Token>,
    dialect: Dialect,
    found: Flawed,
) -> Result<Refusal, NoMemory>
    requires flawed { flaw_at dialect lexed.now.tokens found.index ≡ Some found.flaw }
    requires first { (k : ℕ) → k < found.index → flaw_at dialect lexed.now.tokens k ≡ None }
    ensures { IfOk result (λ refusal. (i : ℕ) × FailsAt (unit_rules dialect) lexed.now.tokens lexed.now.end lexed.now.rest.now i refusal) }
{
    let (front, _) = lexed.tokens.rows().split_at(found.index + 1);
    let whole = read_whole(alloc, front, dialect, lexed.end)?;
    let passed = whole.passed(front.len());
    if passed <= found.index {
        return unexpected_at(alloc, lexed, dialect, passed);
    }
    flawed(alloc, lexed.tokens.rows(), found)
}
