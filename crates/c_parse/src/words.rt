//! Words of the grammar, and how they are read.

ghost use Rattle.std.specs.Prelude.{◌≡◌, ◌&&◌};
ghost use Rattle.hw_text.specs.Reading.{Reads, Anything, ahead, begins};
ghost use Rattle.c_tree.specs.Dialects.{is_full};
ghost use Rattle.c_parse.specs.Values.{keyword_of, is_word};
ghost use Rattle.c_parse.specs.CallGrammar.{Word};

use crate::keyword::Keyword;
use crate::token::Token;
use c_tree::Dialect;
use hw_text::{Cursor, Place, Placed, ReadFault};

/// Where the token stands, if it is this word.
pub fn keyword_of(word: Keyword, token: &Placed<Token>) -> Option<Place>
    ensures { result ≡ keyword_of word token.now }
{
    match &token.token {
        Token::Keyword(other) if other.spelling().as_bytes() == word.spelling().as_bytes() => {
            Some(token.place)
        }
        _ => None,
    }
}

/// Where this word stands, if it is ahead.
fn word_ahead(tokens: &Cursor<'_, Placed<Token>>, word: Keyword) -> Option<Place>
    ensures { result ≡ ahead (keyword_of word) tokens.now }
{
    match tokens.peek() {
        Some(token) => keyword_of(word, token),
        None => None,
    }
}

/// Whether this word is ahead.
pub fn stands_word(tokens: &Cursor<'_, Placed<Token>>, word: Keyword) -> bool
    ensures { result ≡ begins (is_word word) tokens.now }
{
    match tokens.peek() {
        Some(token) => keyword_of(word, token).is_some(),
        None => false,
    }
}

/// Whether this word of the full grammar is ahead.
pub fn stands_word_in_full(
    tokens: &Cursor<'_, Placed<Token>>,
    dialect: Dialect,
    word: Keyword,
) -> bool
    ensures { result ≡ (is_full dialect && begins (is_word word) tokens.now) }
{
    dialect.is_full() && stands_word(tokens, word)
}

/// Reads this word.
pub fn word(tokens: &mut Cursor<'_, Placed<Token>>, word: Keyword) -> Result<Place, ReadFault>
    ensures { Reads (Word word) Anything tokens.old tokens.new result }
{
    let Some(place) = word_ahead(tokens, word) else {
        return Err(ReadFault::Syntax);
    };
    tokens.pass();
    Ok(place)
}
