//! Single tokens, and how they are read.

ghost use Rattle.std.specs.Prelude.{◌≡◌, ◌&&◌, Option, Some, IfOk};
ghost use Rattle.hw_text.specs.declared.placed.Placed.{Placed};
ghost use Rattle.hw_text.specs.Language.{One};
ghost use Rattle.hw_text.specs.Reading.{Reads, Anything, ahead, begins};
ghost use Rattle.c_tree.specs.Dialects.{is_full};
ghost use Rattle.c_parse.specs.declared.token.Token.{Token};
ghost use Rattle.c_parse.specs.Values.{mark_of, is_mark};
ghost use Rattle.c_parse.specs.ExpressionGrammar.{Sign};

use crate::mark::Mark;
use crate::token::Token;
use c_tree::Dialect;
use hw_text::{Cursor, NoMemory, Place, Placed, ReadFault};
use std::alloc::Global;

/// A kind of tokens that have values.
pub trait Terminal {
    type Value: Drop;

    ghost value: { Placed Token → Option Self.Value };

    /// The value of the token, where it is of the kind.
    fn value(alloc: Global, token: &Placed<Token>) -> Result<Option<Self::Value>, NoMemory>
        ensures { IfOk result (λ found. found ≡ value token.now) };

    ghost sample: { (t : Placed Token) × (x : Self.Value) × (value t ≡ Some x) };
}

/// The value of the token ahead, where it is of the kind.
fn value_ahead<T: Terminal>(
    alloc: Global,
    tokens: &Cursor<'_, Placed<Token>>,
) -> Result<Option<T::Value>, NoMemory>
    ensures { IfOk result (λ found. found ≡ ahead T.value tokens.now) }
{
    match tokens.peek() {
        Some(token) => T::value(alloc, token),
        None => Ok(None),
    }
}

/// Reads a token of the kind.
pub fn read_one<T: Terminal>(
    alloc: Global,
    tokens: &mut Cursor<'_, Placed<Token>>,
) -> Result<T::Value, ReadFault>
    ensures { Reads (One T.value) Anything tokens.old tokens.new result }
{
    let found = value_ahead::<T>(alloc, tokens)?;
    let Some(value) = found else {
        return Err(ReadFault::Syntax);
    };
    tokens.pass();
    Ok(value)
}

/// Where the token stands, if it is this mark.
pub fn mark_of(mark: Mark, token: &Placed<Token>) -> Option<Place>
    ensures { result ≡ mark_of mark token.now }
{
    match &token.token {
        Token::Mark(other) if other.spelling().as_bytes() == mark.spelling().as_bytes() => {
            Some(token.place)
        }
        _ => None,
    }
}

/// Where this mark stands, if it is ahead.
fn mark_ahead(tokens: &Cursor<'_, Placed<Token>>, mark: Mark) -> Option<Place>
    ensures { result ≡ ahead (mark_of mark) tokens.now }
{
    match tokens.peek() {
        Some(token) => mark_of(mark, token),
        None => None,
    }
}

/// Whether this mark is ahead.
pub fn stands(tokens: &Cursor<'_, Placed<Token>>, mark: Mark) -> bool
    ensures { result ≡ begins (is_mark mark) tokens.now }
{
    match tokens.peek() {
        Some(token) => mark_of(mark, token).is_some(),
        None => false,
    }
}

/// Whether this mark of the full grammar is ahead.
pub fn stands_in_full(tokens: &Cursor<'_, Placed<Token>>, dialect: Dialect, mark: Mark) -> bool
    ensures { result ≡ (is_full dialect && begins (is_mark mark) tokens.now) }
{
    dialect.is_full() && stands(tokens, mark)
}

/// Reads this mark.
pub fn sign(tokens: &mut Cursor<'_, Placed<Token>>, mark: Mark) -> Result<Place, ReadFault>
    ensures { Reads (Sign mark) Anything tokens.old tokens.new result }
{
    let Some(place) = mark_ahead(tokens, mark) else {
        return Err(ReadFault::Syntax);
    };
    tokens.pass();
    Ok(place)
}
