//! Whole texts: from bytes to the value that they are a text of, or to the first failure.

ghost use Rattle.std.specs.Prelude.{◌≡◌, ◌<◌, ℕ, slice_get, Some, None, IfOk};
ghost use Rattle.hw_text.specs.WholeTexts.{IsAccepted, IsRejected, IfRefused, IsSound, FailsAt};
ghost use Rattle.aadl_tree.specs.declared.package.Package.{Package};
ghost use Rattle.aadl_tree.specs.Allowed.{AreAllowed};
ghost use Rattle.aadl_tree.specs.Layout.{canonical_text};
ghost use Rattle.aadl_tree.specs.Packages.{package_tokens};
ghost use Rattle.aadl_tree.specs.Unplaced.{SamePackage};
ghost use Rattle.aadl_parse.specs.Flaws.{flaw_at};
ghost use Rattle.aadl_parse.specs.Printed.{IsWithinLimits};
ghost use Rattle.aadl_parse.specs.Refusals.{unexpected_there};
ghost use Rattle.aadl_parse.specs.Rules.{flaw_told, text_rules, model_rules};

use crate::flaw::{Flawed, first_flawed};
use crate::lexer::{ModelTokens, read_tokens};
use crate::package::PackageText;
use crate::part::{Closed, Part};
use crate::refusals::{LARGEST, flawed, stopped, too_long, unexpected};
use crate::stop::Stop;
use crate::whole::read_whole;
use aadl_tree::Package;
use hw_text::{Fault, NoMemory, Refusal, Whole};
use std::alloc::Global;

/// The package that a text is a text of, or why it is no model. What is printed of a package is
/// read as the same package, but for places.
pub fn parse(alloc: Global, bytes: &[u8]) -> Result<Package, Fault>
    ensures accepted { IfOk result (λ tree. IsAccepted model_rules bytes.now tree) }
    ensures rejected { IfRefused result (λ refusal. IsRejected model_rules bytes.now refusal) }
    ensures printed { (p : Package) → bytes.now ≡ canonical_text p → AreAllowed (package_tokens p) → IsWithinLimits p → IfOk result (SamePackage p) × IfRefused result (λ refusal. ⊥) }
{
    read_text::<PackageText>(alloc, bytes)
}

/// Reads a whole text of a part of the grammar.
fn read_text<P: Closed>(alloc: Global, bytes: &[u8]) -> Result<P::Value, Fault>
    ensures accepted { IfOk result (λ value. IsAccepted (text_rules P.Part.spells) bytes.now value) }
    ensures rejected { IfRefused result (λ refusal. IsRejected (text_rules P.Part.spells) bytes.now refusal) }
{
    if bytes.len() > LARGEST {
        return Err(Fault::Refused(too_long(alloc, bytes.len())?));
    }
    let lexed = read_tokens(alloc, bytes)?;
    read_lexed::<P>(alloc, &lexed)
}

/// Reads the tokens of a text, and what stopped them.
fn read_lexed<P: Closed>(alloc: Global, lexed: &ModelTokens) -> Result<P::Value, Fault>
    ensures read { IfOk result (λ value. IsSound (text_rules P.Part.spells) lexed.now.tokens lexed.now.end lexed.now.stop value) }
    ensures refused { IfRefused result (λ refusal. (i : ℕ) × FailsAt (text_rules P.Part.spells) lexed.now.tokens lexed.now.end lexed.now.stop i refusal) }
{
    match first_flawed(lexed.tokens.rows()) {
        Some(flaw) => Err(Fault::Refused(failure_before::<P>(alloc, lexed, flaw)?)),
        None => read_flawless::<P>(alloc, lexed),
    }
}

/// Reads tokens of which each is as it should be.
fn read_flawless<P: Closed>(alloc: Global, lexed: &ModelTokens) -> Result<P::Value, Fault>
    requires { (k : ℕ) → flaw_at lexed.now.tokens k ≡ None }
    ensures read { IfOk result (λ value. IsSound (text_rules P.Part.spells) lexed.now.tokens lexed.now.end lexed.now.stop value) }
    ensures refused { IfRefused result (λ refusal. (i : ℕ) × FailsAt (text_rules P.Part.spells) lexed.now.tokens lexed.now.end lexed.now.stop i refusal) }
{
    match read_whole::<P>(alloc, lexed.tokens.rows())? {
        Whole::Text(value) => {
            if lexed.stop == Stop::End {
                Ok(value)
            } else {
                let tokens = lexed.tokens.rows().len();
                Err(Fault::Refused(unexpected_behind(alloc, lexed, tokens)?))
            }
        }
        Whole::Stuck(passed) => Err(Fault::Refused(unexpected_behind(alloc, lexed, passed)?)),
    }
}

/// The first failure in tokens of which one has a flaw.
fn failure_before<P: Closed>(
    alloc: Global,
    lexed: &ModelTokens,
    flaw: Flawed,
) -> Result<Refusal, NoMemory>
    requires flawed { flaw_at lexed.now.tokens flaw.index ≡ Some flaw.flaw }
    requires first { (k : ℕ) → k < flaw.index → flaw_at lexed.now.tokens k ≡ None }
    ensures { IfOk result (λ refusal. (i : ℕ) × FailsAt (text_rules P.Part.spells) lexed.now.tokens lexed.now.end lexed.now.stop i refusal) }
{
    let (front, _) = lexed.tokens.rows().split_at(flaw.index + 1);
    let whole = read_whole::<P>(alloc, front)?;
    let passed = whole.passed(front.len());
    if passed <= flaw.index {
        return unexpected_behind(alloc, lexed, passed);
    }
    flawed_there(alloc, lexed, flaw)
}

/// Why no text goes on behind so many tokens.
fn unexpected_behind(alloc: Global, lexed: &ModelTokens, passed: usize) -> Result<Refusal, NoMemory>
    ensures { IfOk result (λ refusal. refusal ≡ unexpected_there lexed.now.end lexed.now.stop (slice_get lexed.now.tokens passed)) }
{
    match lexed.tokens.rows().get(passed) {
        Some(placed) => unexpected(alloc, &placed.token, placed.place),
        None => Ok(stopped(alloc, lexed.stop, lexed.end)),
    }
}

/// What is wrong with the token that has the flaw.
fn flawed_there(alloc: Global, lexed: &ModelTokens, flaw: Flawed) -> Result<Refusal, NoMemory>
    requires { flaw_at lexed.now.tokens flaw.index ≡ Some flaw.flaw }
    ensures { IfOk result (λ refusal. flaw_told lexed.now.tokens flaw.index ≡ Some refusal) }
{
    let placed = &lexed.tokens.rows()[flaw.index];
    flawed(alloc, placed.place, flaw.flaw)
}
