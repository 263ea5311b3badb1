//! Single tokens that have values of their own, and how they are read.

ghost use Rattle.std.specs.Prelude.{◌≡◌, Option, Some, IfOk};
ghost use Rattle.hw_text.specs.declared.placed.Placed.{Placed};
ghost use Rattle.hw_text.specs.Language.{One};
ghost use Rattle.hw_text.specs.Reading.{Reads, Anything, ahead};

use hw_text::{Cursor, NoMemory, Placed, ReadFault};
use std::alloc::Global;

/// A kind of tokens that have values.
pub trait Terminal {
    type Token;

    type Value: Drop;

    ghost value: { Placed Self.Token → Option Self.Value };

    /// The value of the token, where it is of the kind.
    fn value(alloc: Global, token: &Placed<Self::Token>) -> Result<Option<Self::Value>, NoMemory>
        ensures { IfOk result (λ found. found ≡ value token.now) };

    ghost sample: { (t : Placed Self.Token) × (x : Self.Value) × (value t ≡ Some x) };
}

/// The value of the token ahead, where it is of the kind.
fn value_ahead<K: Terminal>(
    alloc: Global,
    tokens: &Cursor<'_, Placed<K::Token>>,
) -> Result<Option<K::Value>, NoMemory>
    ensures { IfOk result (λ found. found ≡ ahead K.value tokens.now) }
{
    match tokens.peek() {
        Some(token) => K::value(alloc, token),
        None => Ok(None),
    }
}

/// Reads a token of the kind.
pub fn read_one<K: Terminal>(
    alloc: Global,
    tokens: &mut Cursor<'_, Placed<K::Token>>,
) -> Result<K::Value, ReadFault>
    ensures { Reads (One K.value) Anything tokens.old tokens.new result }
{
    let found = value_ahead::<K>(alloc, tokens)?;
    let Some(value) = found else {
        return Err(ReadFault::Syntax);
    };
    tokens.pass();
    Ok(value)
}
