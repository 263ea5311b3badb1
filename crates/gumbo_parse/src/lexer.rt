//! From bytes to tokens.

ghost use Rattle.std.specs.Prelude.{◌≡◌, ◌<◌, ◌≤◌, true, length, IfOk, IfSome};
ghost use Rattle.std.specs.Option.{option_map};
ghost use Rattle.hw_text.specs.declared.bytes.ByteClass.{ByteClass};
ghost use Rattle.hw_text.specs.Text.{begins_in, skipped};
ghost use Rattle.hw_text.specs.Tokens.{Lexes};
ghost use Rattle.gumbo_parse.specs.Tokens.{word_or_name, word_token, number_token, text_token, mark_token, token_at};
ghost use Rattle.gumbo_parse.specs.Words.{word_named};

use crate::description::Description;
use crate::identifier::Identifier;
use crate::mark::Mark;
use crate::token::Token;
use crate::word::Word;
use hw_reading::{Integer, Lexical, tokens_from};
use hw_text::{
    ByteClass, Lexed, NoMemory, Place, behind_byte, decimal, front, is_digit, is_letter,
    place_of_rest, skipped, text_length,
};
use std::alloc::Global;

/// The tokens of contracts.
struct Tokens;

#[tactic(auto, unfolding(crate::specs::Tokens::token_at))]
impl Lexical for Tokens {
    type Token = Token;

    ghost token_at = { token_at };

    ghost skipped = { skipped };

    fn token_at(alloc: Global, bytes: &[u8]) -> Result<Option<(Self::Token, &[u8])>, NoMemory> {
        let Some((first, after)) = front(bytes) else {
            return Ok(None);
        };
        if is_letter(first) {
            let (token, rest) = word_token(alloc, bytes)?;
            return Ok(Some((token, rest)));
        }
        if is_digit(first) {
            return Ok(number_token(bytes));
        }
        if first == b'"' {
            return text_token(alloc, after);
        }
        Ok(mark_token(bytes))
    }

    fn skip(bytes: &[u8]) -> &[u8] {
        skipped(bytes)
    }
}

/// The tokens of a text that begins at a place, as far as it consists of tokens.
pub fn read_tokens(alloc: Global, bytes: &[u8], at: Place) -> Result<Lexed<'_, Token>, NoMemory>
    ensures { IfOk result (λ lexed. Lexes token_at skipped at bytes.now lexed.tokens lexed.end lexed.rest.now) }
{
    let first = skipped(bytes);
    tokens_from::<Tokens>(alloc, first, place_of_rest(at, bytes, first))
}

/// The word at the front of a text that begins with a letter.
#[tactic(auto, unfolding(crate::specs::Tokens::word_token))]
fn word_token(alloc: Global, bytes: &[u8]) -> Result<(Token, &[u8]), NoMemory>
    requires { begins_in ByteClass.LettersAndDigits bytes.now ≡ true }
    ensures exact { IfOk result (λ r. (r.0, r.1.now) ≡ word_token bytes.now) }
    ensures shorter { IfOk result (λ r. length r.1.now < length bytes.now) }
{
    let (word, rest) = bytes.split_at(ByteClass::LettersAndDigits.run_length(bytes));
    Ok((word_or_name(alloc, word)?, rest))
}

fn word_or_name(alloc: Global, bytes: &[u8]) -> Result<Token, NoMemory>
    ensures { IfOk result (λ token. token ≡ word_or_name (word_named bytes.now) bytes.now) }
{
    if let Some(word) = Word::named(bytes) {
        return Ok(Token::Word(word));
    }
    match Identifier::read(alloc, bytes)? {
        Some(name) => Ok(Token::Name(name)),
        None => Ok(Token::Reserved),
    }
}

/// The number at the front of a text that begins with a digit.
#[tactic(auto, unfolding(crate::specs::Tokens::number_token))]
fn number_token(bytes: &[u8]) -> Option<(Token, &[u8])>
    requires { begins_in ByteClass.Digits bytes.now ≡ true }
    ensures exact { option_map (λ r. (r.0, r.1.now)) result ≡ number_token bytes.now }
    ensures shorter { IfSome result (λ r. length r.1.now < length bytes.now) }
{
    let (digits, rest) = bytes.split_at(ByteClass::Digits.run_length(bytes));
    let number = decimal(digits)?;
    Some((Token::Number(Integer::new(number)), rest))
}

/// The text in quotes whose first quote stands before these bytes.
#[tactic(auto, unfolding(crate::specs::Tokens::text_token))]
fn text_token(alloc: Global, bytes: &[u8]) -> Result<Option<(Token, &[u8])>, NoMemory>
    ensures exact { IfOk result (λ found. option_map (λ r. (r.0, r.1.now)) found ≡ text_token bytes.now) }
    ensures within { IfOk result (λ found. IfSome found (λ r. length r.1.now ≤ length bytes.now)) }
{
    let (text, rest) = bytes.split_at(text_length(bytes));
    let Some(after) = behind_byte(rest, b'"') else {
        return Ok(None);
    };
    let description = Description::of(alloc, text)?;
    Ok(Some((Token::Text(description), after)))
}

/// The mark at the front of a text.
#[tactic(auto, unfolding(crate::specs::Tokens::mark_token))]
fn mark_token(bytes: &[u8]) -> Option<(Token, &[u8])>
    ensures exact { option_map (λ r. (r.0, r.1.now)) result ≡ mark_token bytes.now }
    ensures shorter { IfSome result (λ r. length r.1.now < length bytes.now) }
{
    let (mark, rest) = Mark::at(bytes)?;
    Some((Token::Mark(mark), rest))
}
