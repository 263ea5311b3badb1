//! Why a text is no unit: the refusal of each failure.

ghost use Rattle.std.specs.Prelude.{◌≡◌, [], slice_get, Some, None, IfOk, MatchOption};
ghost use Rattle.c_parse.specs.Refusals.{told, limit, too_long, syntax, unexpected, stopped, unexpected_there, token_before, link_of, unexpected_at};

use crate::keyword::Keyword;
use crate::links::LINKS;
use crate::token::Token;
use crate::words::keyword_of;
use c_tree::Dialect;
use hw_text::{Code, Lexed, NoMemory, Place, Placed, Refusal, TextBuf};
use std::alloc::Global;

/// How many bytes a text of users may have.
pub const LARGEST: usize = 1_048_576;

/// A text of more bytes than a user's may have.
pub fn too_long(alloc: Global, bytes: usize) -> Result<Refusal, NoMemory>
    ensures { IfOk result (λ r. r ≡ too_long bytes) }
{
    limit(alloc, "bytes", Place::START, bytes, LARGEST)
}

/// Why no unit goes on behind so many tokens.
pub fn unexpected_at(
    alloc: Global,
    lexed: &Lexed<'_, Token>,
    dialect: Dialect,
    passed: usize,
) -> Result<Refusal, NoMemory>
    ensures { IfOk result (λ r. r ≡ unexpected_at dialect lexed.now.tokens lexed.now.end lexed.now.rest.now passed) }
{
    if !dialect.is_full()
        && let Some(place) = link_behind(lexed.tokens.rows(), passed)
    {
        return limit(alloc, "nesting", place, LINKS + 1, LINKS);
    }
    unexpected_there(alloc, lexed, passed)
}

/// Where the `else` stands, where so many tokens end with it and `if` is the next one.
fn link_behind(tokens: &[Placed<Token>], passed: usize) -> Option<Place>
    ensures { result ≡ link_of (token_before tokens.now passed) (slice_get tokens.now passed) }
{
    let Some(last) = token_before(tokens, passed) else {
        return None;
    };
    let Some(next) = tokens.get(passed) else {
        return None;
    };
    link_of(last, next)
}

/// The token before the one at the index.
fn token_before(tokens: &[Placed<Token>], index: usize) -> Option<&Placed<Token>>
    ensures { MatchOption result (token_before tokens.now index ≡ None) (λ t. token_before tokens.now index ≡ Some t.now) }
{
    if index == 0 {
        None
    } else {
        tokens.get(index - 1)
    }
}

/// Where the `else` of an `else if` stands.
fn link_of(last: &Placed<Token>, next: &Placed<Token>) -> Option<Place>
    ensures { result ≡ link_of (Some last.now) (Some next.now) }
{
    if keyword_of(Keyword::Else, last).is_some() && keyword_of(Keyword::If, next).is_some() {
        Some(last.place)
    } else {
        None
    }
}

/// No unit goes on with what stands behind so many tokens.
fn unexpected_there(
    alloc: Global,
    lexed: &Lexed<'_, Token>,
    passed: usize,
) -> Result<Refusal, NoMemory>
    ensures { IfOk result (λ r. r ≡ unexpected_there lexed.now.end lexed.now.rest.now (slice_get lexed.now.tokens passed)) }
{
    match lexed.tokens.rows().get(passed) {
        Some(placed) => unexpected(alloc, &placed.token, placed.place),
        None => Ok(stopped(alloc, lexed.rest, lexed.end)),
    }
}

/// A token with which no unit goes on.
fn unexpected(alloc: Global, token: &Token, place: Place) -> Result<Refusal, NoMemory>
    ensures { IfOk result (λ r. r ≡ unexpected token.now place) }
{
    match token {
        Token::Keyword(word) => not_in_subset(alloc, place, word.spelling().as_bytes()),
        Token::Reserved(word) => not_in_subset(alloc, place, word.rows()),
        _ => Ok(syntax(alloc, place)),
    }
}

/// The end of the tokens of what is no unit, and what stands behind it.
pub fn stopped(alloc: Global, left: &[u8], place: Place) -> Refusal
    ensures { result ≡ stopped left.now place }
{
    match left.first() {
        None => syntax(alloc, place),
        Some(_) => told(Code::UserBadToken, place, TextBuf::new(alloc)),
    }
}

/// No unit goes on with what stands there.
pub fn syntax(alloc: Global, place: Place) -> Refusal
    ensures { result ≡ syntax place }
{
    told(Code::UserSyntax, place, TextBuf::new(alloc))
}

/// A word of C with which no unit goes on.
fn not_in_subset(alloc: Global, place: Place, word: &[u8]) -> Result<Refusal, NoMemory>
    ensures { IfOk result (λ r. r ≡ told Code.UserNotInSubset place word.now) }
{
    let mut name = TextBuf::new(alloc);
    name.word(word)?;
    Ok(told(Code::UserNotInSubset, place, name))
}

fn told(code: Code, place: Place, word: TextBuf) -> Refusal
    ensures { result ≡ told code place word }
{
    Refusal {
        code,
        place,
        word,
        low: 0,
        high: 0,
        length: 0,
    }
}

/// What there is more of than is allowed, how much, and how much is allowed.
pub fn limit(
    alloc: Global,
    kind: &str,
    place: Place,
    counted: usize,
    allowed: usize,
) -> Result<Refusal, NoMemory>
    ensures { IfOk result (λ r. r ≡ limit kind.now place counted allowed) }
{
    let mut word = TextBuf::new(alloc);
    word.word(kind.as_bytes())?;
    Ok(Refusal {
        code: Code::UserLimit,
        place,
        word,
        low: counted as i128,
        high: allowed as i128,
        length: 0,
    })
}
