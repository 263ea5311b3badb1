//! What may be wrong with a token with which the grammar goes on.

ghost use Rattle.std.specs.Prelude.{◌≡◌, ◌≤◌, ◌<◌, ℕ, Some, None, IfNone, MatchOption};
ghost use Rattle.gumbo_parse.specs.Flaws.{bracket_of, open_behind_token, flaw_of, flaw_at, spot_behind, spot_behind_mark, one_further, length_in};

use crate::mark::Mark;
use crate::token::Token;
use crate::word::Word;
use hw_reading::Bracket;
use hw_text::Placed;

/// How many brackets may be open at once.
pub const DEEPEST: usize = 64;

/// How many tokens the expression of a clause may have.
pub const LONGEST: usize = 500;

/// What is wrong with a token.
#[derive(Clone, Copy)]
pub enum Flaw {
    /// It is a bracket inside as many open ones as there may be.
    TooDeep,
    /// It stands behind as many tokens of an expression as there may be.
    TooLong,
}

/// A token with which something is wrong.
#[derive(Clone, Copy)]
pub struct Flawed {
    pub index: usize,
    pub flaw: Flaw,
}

/// Where in a clause a text goes on.
#[derive(Clone, Copy)]
pub enum Spot {
    Outside,
    /// Behind its word, and before its colon.
    Heading,
    /// Behind so many tokens of its expression.
    Expression(usize),
}

/// The first token with which something is wrong.
pub fn first_flawed(tokens: &[Placed<Token>]) -> Option<Flawed>
    ensures { MatchOption result ((k : ℕ) → flaw_at tokens.now k ≡ None)
        (λ f. (flaw_at tokens.now f.index ≡ Some f.flaw) × ((k : ℕ) → k < f.index → flaw_at tokens.now k ≡ None)) }
{
    let mut depth = 0;
    let mut spot = Spot::Outside;
    for (index, placed) in tokens.iter().enumerate() {
        if let Some(flaw) = flaw_of(depth, spot, &placed.token) {
            return Some(Flawed { index, flaw });
        }
        depth = open_behind_token(depth, &placed.token);
        spot = spot_behind(spot, &placed.token);
    }
    None
}

/// What is wrong with a token before which so many brackets are open, and which stands there in a
/// clause.
fn flaw_of(depth: usize, spot: Spot, token: &Token) -> Option<Flaw>
    requires shallow { depth ≤ 64 }
    requires short { length_in spot ≤ 500 }
    ensures exact { result ≡ flaw_of depth spot token.now }
    ensures shallow { IfNone result (open_behind_token depth token.now ≤ 64) }
    ensures short { IfNone result (length_in (spot_behind spot token.now) ≤ 500) }
{
    if open_behind_token(depth, token) > DEEPEST {
        Some(Flaw::TooDeep)
    } else if length_in(spot_behind(spot, token)) > LONGEST {
        Some(Flaw::TooLong)
    } else {
        None
    }
}

/// How many brackets are open behind a token, so many being open before it.
fn open_behind_token(depth: usize, token: &Token) -> usize
    requires { depth ≤ 64 }
    ensures { result ≡ open_behind_token depth token.now }
{
    bracket_of(token).open_behind(depth)
}

/// What a token is to the brackets around it.
fn bracket_of(token: &Token) -> Bracket
    ensures { result ≡ bracket_of token.now }
{
    match token {
        Token::Mark(Mark::OpenParenthesis) | Token::Mark(Mark::OpenBracket) => Bracket::Opens,
        Token::Mark(Mark::CloseParenthesis) | Token::Mark(Mark::CloseBracket) => Bracket::Closes,
        _ => Bracket::Neither,
    }
}

/// How many tokens of its expression a clause has so far.
fn length_in(spot: Spot) -> usize
    ensures { result ≡ length_in spot }
{
    match spot {
        Spot::Expression(count) => count,
        Spot::Outside | Spot::Heading => 0,
    }
}

/// Where a clause goes on behind a token.
fn spot_behind(spot: Spot, token: &Token) -> Spot
    requires { length_in spot ≤ 500 }
    ensures { result ≡ spot_behind spot token.now }
{
    match token {
        Token::Word(Word::Assume) | Token::Word(Word::Guarantee) => Spot::Heading,
        Token::Mark(mark) => spot_behind_mark(spot, *mark),
        _ => one_further(spot),
    }
}

/// Where a clause goes on behind a mark.
fn spot_behind_mark(spot: Spot, mark: Mark) -> Spot
    requires { length_in spot ≤ 500 }
    ensures { result ≡ spot_behind_mark spot mark }
{
    match (spot, mark) {
        (_, Mark::Semicolon) => Spot::Outside,
        (Spot::Heading, Mark::Colon) => Spot::Expression(0),
        _ => one_further(spot),
    }
}

/// Where a clause goes on behind a token that neither begins nor ends a part of it.
fn one_further(spot: Spot) -> Spot
    requires { length_in spot ≤ 500 }
    ensures { result ≡ one_further spot }
{
    match spot {
        Spot::Expression(count) => Spot::Expression(count + 1),
        other => other,
    }
}
