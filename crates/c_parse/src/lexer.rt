//! From bytes to tokens.

ghost use Rattle.std.specs.Prelude.{◌≡◌, ◌<◌, ◌≤◌, true, length, IfOk, IfSome};
ghost use Rattle.std.specs.Option.{option_map};
ghost use Rattle.hw_text.specs.Name.{is_digit};
ghost use Rattle.hw_text.specs.Reading.{begins};
ghost use Rattle.c_tree.specs.Names.{begins_name, continues_name};
ghost use Rattle.c_parse.specs.Keywords.{keyword_named};
ghost use Rattle.c_parse.specs.Tokens.{name_length, word_or_name, word_token, literal_token, begins_comment, mark_token, token_at, HasTokens};

use crate::blank::Blank;
use crate::keyword::Keyword;
use crate::mark::Mark;
use crate::token::Token;
use c_tree::{Identifier, Numeral, begins_name, continues_name, past_numeral};
use hw_text::{
    ByteList, Lexed, NoMemory, Place, Placed, Rows, begins_with, front, is_digit, place_of_rest,
};
use std::alloc::Global;

/// The tokens of a text, as far as it consists of tokens.
pub fn read_tokens(alloc: Global, bytes: &[u8]) -> Result<Lexed<'_, Token>, NoMemory>
    ensures { IfOk result (λ lexed. HasTokens bytes.now lexed.tokens lexed.end lexed.rest.now) }
{
    let mut tokens = Rows::new(alloc);
    let mut rest = Blank::LineStart.skip(bytes);
    let mut place = place_of_rest(Place::START, bytes, rest);
    'tokens: while let Some((token, after)) = token_at(alloc, rest)? {
        tokens.push(Placed { token, place })?;
        let next = Blank::Between.skip(after);
        place = place_of_rest(place, rest, next);
        rest = next;
    }
    Ok(Lexed {
        tokens,
        end: place,
        rest,
    })
}

/// The longest token at the front of a text, and the text behind it.
#[tactic(auto, unfolding(crate::specs::Tokens::token_at))]
fn token_at(alloc: Global, bytes: &[u8]) -> Result<Option<(Token, &[u8])>, NoMemory>
    ensures exact { IfOk result (λ found. option_map (λ r. (r.0, r.1.now)) found ≡ token_at bytes.now) }
    ensures shorter { IfOk result (λ found. IfSome found (λ r. length r.1.now < length bytes.now)) }
{
    let Some((first, _)) = front(bytes) else {
        return Ok(None);
    };
    if begins_name(first) {
        let (token, rest) = word_token(alloc, bytes)?;
        return Ok(Some((token, rest)));
    }
    if is_digit(first) {
        return literal_token(alloc, bytes);
    }
    Ok(mark_token(bytes))
}

/// How many letters, digits and underscores the bytes begin with.
fn name_length(bytes: &[u8]) -> usize
    ensures within { result ≤ length bytes.now }
    ensures exact { result ≡ name_length bytes.now }
{
    let mut count = 0;
    let mut rest = bytes;
    while let Some((first, after)) = front(rest) {
        if !continues_name(first) {
            return count;
        }
        count += 1;
        rest = after;
    }
    count
}

/// The word at the front of a text that begins with a letter or underscore.
#[tactic(auto, unfolding(crate::specs::Tokens::word_token))]
fn word_token(alloc: Global, bytes: &[u8]) -> Result<(Token, &[u8]), NoMemory>
    requires { begins begins_name bytes.now ≡ true }
    ensures exact { IfOk result (λ r. (r.0, r.1.now) ≡ word_token bytes.now) }
    ensures shorter { IfOk result (λ r. length r.1.now < length bytes.now) }
{
    let (word, rest) = bytes.split_at(name_length(bytes));
    Ok((word_or_name(alloc, word)?, rest))
}

fn word_or_name(alloc: Global, bytes: &[u8]) -> Result<Token, NoMemory>
    ensures { IfOk result (λ token. token ≡ word_or_name (keyword_named bytes.now) bytes.now) }
{
    if let Some(word) = Keyword::named(bytes) {
        return Ok(Token::Keyword(word));
    }
    match Identifier::read(alloc, bytes)? {
        Some(name) => Ok(Token::Name(name)),
        None => Ok(Token::Reserved(ByteList::of(alloc, bytes)?)),
    }
}

/// The literal at the front of a text that begins with a digit.
#[tactic(auto, unfolding(crate::specs::Tokens::literal_token))]
fn literal_token(alloc: Global, bytes: &[u8]) -> Result<Option<(Token, &[u8])>, NoMemory>
    requires { begins is_digit bytes.now ≡ true }
    ensures exact { IfOk result (λ found. option_map (λ r. (r.0, r.1.now)) found ≡ literal_token bytes.now) }
    ensures shorter { IfOk result (λ found. IfSome found (λ r. length r.1.now < length bytes.now)) }
{
    let rest = past_numeral(bytes);
    let (spelling, _) = bytes.split_at(bytes.len() - rest.len());
    match Numeral::read(alloc, spelling)? {
        Some(literal) => Ok(Some((Token::Literal(literal), rest))),
        None => Ok(None),
    }
}

fn begins_comment(bytes: &[u8]) -> bool
    ensures { result ≡ begins_comment bytes.now }
{
    match front(bytes) {
        Some((first, after)) => first == b'/' && begins_with(after, b'*'),
        None => false,
    }
}

/// The mark at the front of a text.
#[tactic(auto, unfolding(crate::specs::Tokens::mark_token))]
fn mark_token(bytes: &[u8]) -> Option<(Token, &[u8])>
    ensures exact { option_map (λ r. (r.0, r.1.now)) result ≡ mark_token bytes.now }
    ensures shorter { IfSome result (λ r. length r.1.now < length bytes.now) }
{
    if begins_comment(bytes) {
        return None;
    }
    let (mark, rest) = Mark::at(bytes)?;
    Some((Token::Mark(mark), rest))
}
