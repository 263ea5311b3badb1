//! From bytes to tokens, one after another.

ghost use Rattle.std.specs.Prelude.{◌≡◌, ◌<◌, ◌≤◌, ℕ, List, Option, length, IfOk, IfSome};
ghost use Rattle.std.specs.Option.{option_map};
ghost use Rattle.hw_text.specs.Tokens.{AreTokensOf};

use hw_text::{Lexed, NoMemory, Place, Placed, Rows, place_of_rest};
use std::alloc::Global;

/// The tokens of a language, each the longest at the front of a text.
pub trait Lexical {
    type Token: Drop;

    ghost token_at: { List ℕ → Option (Self.Token × List ℕ) };

    ghost skipped: { List ℕ → List ℕ };

    /// The longest token at the front of a text, and the text behind it.
    fn token_at(alloc: Global, bytes: &[u8]) -> Result<Option<(Self::Token, &[u8])>, NoMemory>
        ensures exact { IfOk result (λ found. option_map (λ r. (r.0, r.1.now)) found ≡ token_at bytes.now) }
        ensures shorter { IfOk result (λ found. IfSome found (λ r. length r.1.now < length bytes.now)) };

    /// The text behind the blanks at its front.
    fn skip(bytes: &[u8]) -> &[u8]
        ensures exact { result.now ≡ skipped bytes.now }
        ensures within { length result.now ≤ length bytes.now };
}

/// The tokens of a text that stands at a place, behind blanks, as far as it consists of tokens.
pub fn tokens_from<L: Lexical>(
    alloc: Global,
    bytes: &[u8],
    at: Place,
) -> Result<Lexed<'_, L::Token>, NoMemory>
    ensures { IfOk result (λ lexed. AreTokensOf L.token_at L.skipped at bytes.now lexed.tokens lexed.end lexed.rest.now) }
{
    let mut tokens = Rows::new(alloc);
    let mut rest = bytes;
    let mut place = at;
    'tokens: while let Some((token, after)) = L::token_at(alloc, rest)? {
        tokens.push(Placed { token, place })?;
        let next = L::skip(after);
        place = place_of_rest(place, rest, next);
        rest = next;
    }
    Ok(Lexed {
        tokens,
        end: place,
        rest,
    })
}
