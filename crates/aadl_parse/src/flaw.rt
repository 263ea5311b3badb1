//! What may be wrong with a token with which the grammar goes on.

ghost use Rattle.std.specs.Prelude.{◌≡◌, ◌≤◌, ◌<◌, ℕ, Some, None, IfNone, MatchOption};
ghost use Rattle.aadl_parse.specs.Flaws.{open_behind_mark, open_behind_token, flaw_of, flaw_at};

use aadl_tree::{Mark, Token};
use hw_text::Placed;

/// How many brackets may be open at once.
pub const DEEPEST: usize = 64;

/// What is wrong with a token.
#[derive(Clone, Copy, Debug, PartialEq, Eq)]
pub enum Flaw {
    /// It is a bracket inside as many open ones as there may be.
    TooDeep,
    /// It is a text in quotes in which, behind so many bytes, one stands that may not.
    BadByte(usize),
}

/// A token with which something is wrong.
#[derive(Clone, Copy, Debug, PartialEq, Eq)]
pub struct Flawed {
    pub index: usize,
    pub flaw: Flaw,
}

/// The first token with which something is wrong.
pub fn first_flawed(tokens: &[Placed<Token>]) -> Option<Flawed>
    ensures { MatchOption result ((k : ℕ) → flaw_at tokens.now k ≡ None)
        (λ f. (flaw_at tokens.now f.index ≡ Some f.flaw) × ((k : ℕ) → k < f.index → flaw_at tokens.now k ≡ None)) }
{
    let mut depth = 0;
    for (index, placed) in tokens.iter().enumerate() {
        if let Some(flaw) = flaw_of(depth, &placed.token) {
            return Some(Flawed { index, flaw });
        }
        depth = open_behind_token(depth, &placed.token);
    }
    None
}

/// What is wrong with a token before which so many brackets are open.
fn flaw_of(depth: usize, token: &Token) -> Option<Flaw>
    requires { depth ≤ 64 }
    ensures exact { result ≡ flaw_of depth token.now }
    ensures shallow { IfNone result (open_behind_token depth token.now ≤ 64) }
{
    match token {
        Token::SpoiltText(plain) => Some(Flaw::BadByte(*plain)),
        Token::Mark(mark) if open_behind_mark(depth, *mark) > DEEPEST => Some(Flaw::TooDeep),
        _ => None,
    }
}

/// How many brackets are open behind a token, so many being open before it.
fn open_behind_token(depth: usize, token: &Token) -> usize
    requires { depth ≤ 64 }
    ensures { result ≡ open_behind_token depth token.now }
{
    match token {
        Token::Mark(mark) => open_behind_mark(depth, *mark),
        _ => depth,
    }
}

/// How many brackets are open behind a mark, so many being open before it.
fn open_behind_mark(depth: usize, mark: Mark) -> usize
    requires { depth ≤ 64 }
    ensures { result ≡ open_behind_mark depth mark }
{
    match mark {
        Mark::OpenParenthesis | Mark::OpenBrace | Mark::OpenBracket => depth + 1,
        Mark::CloseParenthesis | Mark::CloseBrace | Mark::CloseBracket => depth.saturating_sub(1),
        _ => depth,
    }
}
