//! The first token with which something is wrong, and what is told of it.

ghost use Rattle.std.specs.Prelude.{◌≡◌, ◌<◌, ℕ, take, drop, length, Some, None, MatchOption, IfOk};
ghost use Rattle.c_parse.specs.Nesting.{open_behind, expression_length};
ghost use Rattle.c_parse.specs.Flaws.{is_too_deep, begins_call, leads_too_far, is_too_long, flaw_at, place_at, flawed};

use crate::flaw::{DEEPEST, Flaw, Flawed, LONGEST};
use crate::leaf::stands;
use crate::mark::Mark;
use crate::names::stands_name;
use crate::nesting::{Brackets, expression_length, leads, opens};
use crate::ranges::empty_range_at;
use crate::refusals::{limit, syntax};
use crate::token::Token;
use c_tree::Dialect;
use hw_text::{Cursor, NoMemory, Place, Placed, Refusal};
use std::alloc::Global;

/// The first token with which something is wrong, in the full grammar or in that of users.
pub fn first_flawed(tokens: &[Placed<Token>], dialect: Dialect) -> Option<Flawed>
    ensures { MatchOption result ((k : ℕ) → flaw_at dialect tokens.now k ≡ None)
        (λ f. (flaw_at dialect tokens.now f.index ≡ Some f.flaw) × ((k : ℕ) → k < f.index → flaw_at dialect tokens.now k ≡ None)) }
{
    let mut brackets = Brackets::NONE;
    for (index, placed) in tokens.iter().enumerate() {
        if let Some(flaw) = flaw_at(tokens, index, brackets.open(), dialect) {
            return Some(Flawed { index, flaw });
        }
        brackets = brackets.behind(&placed.token);
    }
    None
}

/// What is wrong with the token at the index, before which so many brackets are open.
fn flaw_at(tokens: &[Placed<Token>], index: usize, depth: usize, dialect: Dialect) -> Option<Flaw>
    requires within { index < length tokens.now }
    requires counted { depth ≡ open_behind (take index tokens.now) }
    ensures { result ≡ flaw_at dialect tokens.now index }
{
    if !dialect.is_full() && is_too_deep(tokens, index, depth) {
        Some(Flaw::TooDeep)
    } else if !dialect.is_full() && is_too_long(tokens, index) {
        Some(Flaw::TooLong)
    } else if empty_range_at(tokens, index).is_some() {
        Some(Flaw::EmptyRange)
    } else {
        None
    }
}

fn is_too_deep(tokens: &[Placed<Token>], index: usize, depth: usize) -> bool
    requires { depth ≡ open_behind (take index tokens.now) }
    ensures { result ≡ is_too_deep tokens.now index }
{
    match tokens.get(index) {
        Some(placed) => opens(&placed.token) && depth >= DEEPEST,
        None => false,
    }
}

/// Whether an expression has one token too many with it.
fn is_too_long(tokens: &[Placed<Token>], index: usize) -> bool
    requires { index < length tokens.now }
    ensures { result ≡ is_too_long tokens.now index }
{
    let (front, _) = tokens.split_at(index + 1);
    let (_, window) = front.split_at(index.saturating_sub(LONGEST + 1));
    leads_too_far(window)
}

/// Whether behind the first token an expression begins to which too many of these tokens belong.
fn leads_too_far(tokens: &[Placed<Token>]) -> bool
    ensures { result ≡ leads_too_far tokens.now }
{
    let Some((first, rest)) = tokens.split_first() else {
        return false;
    };
    leads(&first.token) && !begins_call(rest) && expression_length(rest) > LONGEST
}

/// Whether a name and `(` stand there.
fn begins_call(tokens: &[Placed<Token>]) -> bool
    ensures { result ≡ begins_call tokens.now }
{
    let Some((_, rest)) = tokens.split_first() else {
        return false;
    };
    stands_name(&Cursor::new(tokens)) && stands(&Cursor::new(rest), Mark::OpenParenthesis)
}

/// What is told of a token for its flaw.
pub fn flawed(alloc: Global, tokens: &[Placed<Token>], found: Flawed) -> Result<Refusal, NoMemory>
    ensures { IfOk result (λ r. r ≡ flawed tokens.now found.index found.flaw) }
{
    match found.flaw {
        Flaw::TooDeep => {
            let place = place_at(tokens, found.index);
            limit(alloc, "nesting", place, DEEPEST + 1, DEEPEST)
        }
        Flaw::TooLong => {
            let start = found.index.saturating_sub(LONGEST);
            let counted = length_from(tokens, start);
            limit(alloc, "tokens", place_at(tokens, start), counted, LONGEST)
        }
        Flaw::EmptyRange => {
            let start = empty_range_at(tokens, found.index);
            Ok(syntax(alloc, start.unwrap_or(Place::NONE)))
        }
    }
}

fn place_at(tokens: &[Placed<Token>], index: usize) -> Place
    ensures { result ≡ place_at tokens.now index }
{
    match tokens.get(index) {
        Some(placed) => placed.place,
        None => Place::NONE,
    }
}

/// How many tokens the expression has that begins with the token at the index.
fn length_from(tokens: &[Placed<Token>], index: usize) -> usize
    ensures { result ≡ expression_length (drop index tokens.now) }
{
    let (_, rest) = tokens.split_at(index.min(tokens.len()));
    expression_length(rest)
}
