//! What tokens end with.

ghost use Rattle.std.specs.Prelude.{◌≡◌, ◌∷◌, [], reverse, MatchOption};
ghost use Rattle.std.specs.Option.{option_map};
ghost use Rattle.c_parse.specs.Values.{mark_of, keyword_of, name_of, integer_of};
ghost use Rattle.c_parse.specs.RangeEnds.{last, before_last};

use crate::keyword::Keyword;
use crate::leaf::mark_of;
use crate::mark::Mark;
use crate::token::Token;
use crate::words::keyword_of;
use hw_text::{Place, Placed};

/// The last token, and those before it.
pub fn last(tokens: &[Placed<Token>]) -> Option<(&Placed<Token>, &[Placed<Token>])>
    ensures { MatchOption result (reverse tokens.now ≡ []) (λ r. reverse tokens.now ≡ r.0.now ∷ reverse r.1.now) }
{
    tokens.split_last()
}

/// Where this mark stands at the end, and the tokens before it.
pub fn last_mark(tokens: &[Placed<Token>], mark: Mark) -> Option<(Place, &[Placed<Token>])>
    ensures { option_map (λ r. (r.0, reverse r.1.now)) result ≡ last (mark_of mark) (reverse tokens.now) }
{
    let (placed, rest) = last(tokens)?;
    let place = mark_of(mark, placed)?;
    Some((place, rest))
}

/// The tokens before this mark.
pub fn before_mark(tokens: &[Placed<Token>], mark: Mark) -> Option<&[Placed<Token>]>
    ensures { option_map (λ r. reverse r.now) result ≡ before_last (mark_of mark) (reverse tokens.now) }
{
    let (_, rest) = last_mark(tokens, mark)?;
    Some(rest)
}

/// The tokens before this word.
pub fn before_word(tokens: &[Placed<Token>], word: Keyword) -> Option<&[Placed<Token>]>
    ensures { option_map (λ r. reverse r.now) result ≡ before_last (keyword_of word) (reverse tokens.now) }
{
    let (placed, rest) = last(tokens)?;
    keyword_of(word, placed)?;
    Some(rest)
}

/// The tokens before a name.
pub fn before_name(tokens: &[Placed<Token>]) -> Option<&[Placed<Token>]>
    ensures { option_map (λ r. reverse r.now) result ≡ before_last name_of (reverse tokens.now) }
{
    let (placed, rest) = last(tokens)?;
    match &placed.token {
        Token::Name(_) => Some(rest),
        _ => None,
    }
}

/// The tokens before an integer type.
pub fn before_integer(tokens: &[Placed<Token>]) -> Option<&[Placed<Token>]>
    ensures { option_map (λ r. reverse r.now) result ≡ before_last integer_of (reverse tokens.now) }
{
    let (placed, rest) = last(tokens)?;
    match &placed.token {
        Token::Keyword(Keyword::Integer(_)) => Some(rest),
        _ => None,
    }
}
