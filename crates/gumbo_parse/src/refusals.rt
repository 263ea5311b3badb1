//! Why a text is no contract: the refusal of each failure.

ghost use Rattle.std.specs.Prelude.{◌≡◌, ◌≤◌, Some, length, slice_get, IfOk};
ghost use Rattle.gumbo_parse.specs.Flaws.{flaw_at};
ghost use Rattle.gumbo_parse.specs.Refusals.{syntax, is_semicolon, span, place_in, flawed};

use crate::flaw::{DEEPEST, Flaw, Flawed, LONGEST};
use crate::mark::Mark;
use crate::token::Token;
use hw_reading::{limit, plain};
use hw_text::{Code, NoMemory, Place, Placed, Refusal};
use std::alloc::Global;

/// No contract goes on with what stands there.
pub fn syntax(alloc: Global, place: Place) -> Refusal
    ensures { result ≡ syntax place }
{
    plain(alloc, Code::ContractSyntax, place)
}

/// What is wrong with the token that has the flaw.
pub fn flawed(alloc: Global, tokens: &[Placed<Token>], flaw: Flawed) -> Result<Refusal, NoMemory>
    requires { flaw.index ≤ length tokens.now }
    ensures { IfOk result (λ r. r ≡ flawed tokens.now flaw.index flaw.flaw) }
{
    match flaw.flaw {
        Flaw::TooDeep => {
            let place = place_in(tokens, flaw.index);
            limit(
                alloc,
                Code::ContractLimit,
                "nesting",
                place,
                DEEPEST + 1,
                DEEPEST,
            )
        }
        Flaw::TooLong => {
            let place = place_in(tokens, flaw.index.saturating_sub(LONGEST));
            let (_, rest) = tokens.split_at(flaw.index);
            let further = span(rest);
            limit(
                alloc,
                Code::ContractLimit,
                "tokens",
                place,
                LONGEST + further,
                LONGEST,
            )
        }
    }
}

/// Where the token at the index stands.
fn place_in(tokens: &[Placed<Token>], index: usize) -> Place
    ensures { result ≡ place_in (slice_get tokens.now index) }
{
    match tokens.get(index) {
        Some(placed) => placed.place,
        None => Place::NONE,
    }
}

/// How many tokens stand before the first semicolon, or in all.
fn span(tokens: &[Placed<Token>]) -> usize
    ensures exact { result ≡ span tokens.now }
    ensures within { result ≤ length tokens.now }
{
    let mut count = 0;
    for placed in tokens {
        if is_semicolon(&placed.token) {
            return count;
        }
        count += 1;
    }
    count
}

fn is_semicolon(token: &Token) -> bool
    ensures { result ≡ is_semicolon token.now }
{
    matches!(token, Token::Mark(Mark::Semicolon))
}
