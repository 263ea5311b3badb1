//! From bytes to tokens.

ghost use Rattle.std.specs.Prelude.{◌≡◌, ◌<◌, length, IfOk, IfSome};
ghost use Rattle.std.specs.Option.{option_map};
ghost use Rattle.aadl_tree.specs.Tokens.{mark_token, token_at};
ghost use Rattle.aadl_parse.specs.Stops.{IsLexed};

use crate::annex_text::annex_token;
use crate::number::number_token;
use crate::quoted_text::text_token;
use crate::stop::Stop;
use crate::word::word_token;
use aadl_tree::{Mark, Token};
use hw_text::{
    NoMemory, Place, Placed, Rows, behind_bytes, front, is_digit, is_letter, place_of_rest, skipped,
};
use std::alloc::Global;

/// The tokens at the front of a text.
#[derive(Debug, Drop)]
pub struct ModelTokens {
    pub tokens: Rows<Placed<Token>>,
    /// Where the tokens end.
    pub end: Place,
    /// Why they end there.
    pub stop: Stop,
}

/// The tokens of a text, as far as it consists of tokens, and why they end.
pub fn read_tokens(alloc: Global, bytes: &[u8]) -> Result<ModelTokens, NoMemory>
    ensures { IfOk result (λ lexed. IsLexed bytes.now lexed.tokens lexed.end lexed.stop) }
{
    let mut tokens = Rows::new(alloc);
    let mut rest = skipped(bytes);
    let mut place = place_of_rest(Place::START, bytes, rest);
    'tokens: while let Some((token, after)) = token_at(alloc, rest)? {
        tokens.push(Placed { token, place })?;
        let next = skipped(after);
        place = place_of_rest(place, rest, next);
        rest = next;
    }
    Ok(ModelTokens {
        tokens,
        end: place,
        stop: Stop::at(rest),
    })
}

/// The longest token at the front of a text, and the text behind it.
#[tactic(auto, unfolding(aadl_tree::specs::Tokens::token_at))]
fn token_at(alloc: Global, bytes: &[u8]) -> Result<Option<(Token, &[u8])>, NoMemory>
    ensures exact { IfOk result (λ found. option_map (λ r. (r.0, r.1.now)) found ≡ token_at bytes.now) }
    ensures shorter { IfOk result (λ found. IfSome found (λ r. length r.1.now < length bytes.now)) }
{
    let Some((first, after)) = front(bytes) else {
        return Ok(None);
    };
    if is_letter(first) {
        let (token, rest) = word_token(alloc, bytes)?;
        return Ok(Some((token, rest)));
    }
    if is_digit(first) {
        return number_token(alloc, bytes);
    }
    if first == b'"' {
        return text_token(alloc, after);
    }
    if let Some(inner) = behind_bytes(bytes, b"{**") {
        return annex_token(alloc, inner);
    }
    Ok(mark_token(bytes))
}

/// The mark at the front of a text, and the text behind it.
#[tactic(auto, unfolding(aadl_tree::specs::Tokens::mark_token))]
fn mark_token(bytes: &[u8]) -> Option<(Token, &[u8])>
    ensures exact { option_map (λ r. (r.0, r.1.now)) result ≡ mark_token bytes.now }
    ensures shorter { IfSome result (λ r. length r.1.now < length bytes.now) }
{
    let (mark, rest) = Mark::at(bytes)?;
    Some((Token::Mark(mark), rest))
}
