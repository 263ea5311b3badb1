//! From the text of an annex to its contract, or to the first failure.

ghost use Rattle.std.specs.Prelude.{◌≡◌, ◌<◌, ℕ, slice_get, Some, None, IfOk};
ghost use Rattle.hw_text.specs.declared.place.Place.{Place};
ghost use Rattle.hw_text.specs.WholeTexts.{IsAccepted, IsRejected, IfRefused, IsSound, FailsAt};
ghost use Rattle.gumbo_parse.specs.declared.contract.Contract.{Contract};
ghost use Rattle.gumbo_parse.specs.Allowed.{AreAllowed};
ghost use Rattle.gumbo_parse.specs.Annex.{annex_text};
ghost use Rattle.gumbo_parse.specs.ContractTokens.{contract_tokens};
ghost use Rattle.gumbo_parse.specs.Flaws.{flaw_at};
ghost use Rattle.gumbo_parse.specs.Printed.{IsWithinLimits};
ghost use Rattle.gumbo_parse.specs.Refusals.{unexpected_there};
ghost use Rattle.gumbo_parse.specs.Rules.{contract_rules};
ghost use Rattle.gumbo_parse.specs.Unplaced.{SameContract};

use crate::contract::Contract;
use crate::flaw::{Flawed, first_flawed};
use crate::lexer::read_tokens;
use crate::refusals::{flawed, syntax};
use crate::sections::Annex;
use crate::token::Token;
use hw_reading::read_whole;
use hw_text::{Fault, Lexed, NoMemory, Place, Refusal, Whole};
use std::alloc::Global;

/// The contract of a text that begins at a place, or why it is none. What is printed of a contract is
/// read as the same contract, but for places.
pub fn parse_annex(alloc: Global, bytes: &[u8], at: Place) -> Result<Contract, Fault>
    ensures accepted { IfOk result (λ contract. IsAccepted (contract_rules at) bytes.now contract) }
    ensures rejected { IfRefused result (λ refusal. IsRejected (contract_rules at) bytes.now refusal) }
    ensures printed { (c : Contract) → bytes.now ≡ annex_text c → AreAllowed (contract_tokens c) → IsWithinLimits c → IfOk result (SameContract c) × IfRefused result (λ refusal. ⊥) }
{
    let lexed = read_tokens(alloc, bytes, at)?;
    read_lexed(alloc, &lexed)
}

/// Reads the tokens of a text, and what stands behind them.
fn read_lexed(alloc: Global, lexed: &Lexed<'_, Token>) -> Result<Contract, Fault>
    ensures read { (at : Place) → IfOk result (λ value. IsSound (contract_rules at) lexed.now.tokens lexed.now.end lexed.now.rest.now value) }
    ensures refused { (at : Place) → IfRefused result (λ refusal. (i : ℕ) × FailsAt (contract_rules at) lexed.now.tokens lexed.now.end lexed.now.rest.now i refusal) }
{
    match first_flawed(lexed.tokens.rows()) {
        Some(flaw) => Err(Fault::Refused(failure_before(alloc, lexed, flaw)?)),
        None => read_flawless(alloc, lexed),
    }
}

/// Reads tokens of which each is as it should be.
fn read_flawless(alloc: Global, lexed: &Lexed<'_, Token>) -> Result<Contract, Fault>
    requires { (k : ℕ) → flaw_at lexed.now.tokens k ≡ None }
    ensures read { (at : Place) → IfOk result (λ value. IsSound (contract_rules at) lexed.now.tokens lexed.now.end lexed.now.rest.now value) }
    ensures refused { (at : Place) → IfRefused result (λ refusal. (i : ℕ) × FailsAt (contract_rules at) lexed.now.tokens lexed.now.end lexed.now.rest.now i refusal) }
{
    match read_whole(&Annex, alloc, lexed.tokens.rows())? {
        Whole::Text(value) => {
            if lexed.rest.len() == 0 {
                Ok(value)
            } else {
                let tokens = lexed.tokens.rows().len();
                Err(Fault::Refused(unexpected_behind(alloc, lexed, tokens)))
            }
        }
        Whole::Stuck(passed) => Err(Fault::Refused(unexpected_behind(alloc, lexed, passed))),
    }
}

/// The first failure in tokens of which one has a flaw.
fn failure_before(
    alloc: Global,
    lexed: &Lexed<'_, Token>,
    flaw: Flawed,
) -> Result<Refusal, NoMemory>
    requires flawed { flaw_at lexed.now.tokens flaw.index ≡ Some flaw.flaw }
    requires first { (k : ℕ) → k < flaw.index → flaw_at lexed.now.tokens k ≡ None }
    ensures { (at : Place) → IfOk result (λ refusal. (i : ℕ) × FailsAt (contract_rules at) lexed.now.tokens lexed.now.end lexed.now.rest.now i refusal) }
{
    let (front, _) = lexed.tokens.rows().split_at(flaw.index + 1);
    let whole = read_whole(&Annex, alloc, front)?;
    let passed = whole.passed(front.len());
    if passed <= flaw.index {
        return Ok(unexpected_behind(alloc, lexed, passed));
    }
    flawed(alloc, lexed.tokens.rows(), flaw)
}

/// Why no contract goes on behind so many tokens.
fn unexpected_behind(alloc: Global, lexed: &Lexed<'_, Token>, passed: usize) -> Refusal
    ensures { result ≡ unexpected_there lexed.now.end (slice_get lexed.now.tokens passed) }
{
    match lexed.tokens.rows().get(passed) {
        Some(placed) => syntax(alloc, placed.place),
        None => syntax(alloc, lexed.end),
    }
}
