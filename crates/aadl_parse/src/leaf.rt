//! Parts of a grammar that are one token with a value of its own.

ghost use Rattle.std.specs.Prelude.{◌≡◌, ℕ, List, [], Option, Some, true, refl, IfOk};
ghost use Rattle.hw_text.specs.declared.placed.Placed.{Placed};
ghost use Rattle.hw_text.specs.Language.{One};
ghost use Rattle.hw_text.specs.Reading.{Reads, ahead, begins};
ghost use Rattle.aadl_tree.specs.declared.token.Token.{Token};
ghost use Rattle.aadl_parse.specs.Shapes.{one_of, Without};
ghost use Rattle.aadl_parse.specs.Laws.{one-sample, one-begins};

use crate::part::{Closed, Part};
use aadl_tree::Token;
use hw_text::{Cursor, NoMemory, Placed, ReadFault};
use std::alloc::Global;
use std::marker::PhantomData;

/// A kind of tokens that have values.
pub trait Terminal {
    type Value: Drop;

    ghost value: { Placed Token → Option Self.Value };

    ghost shapes: { List (List ℕ) };

    ghost sample: { (t : Placed Token) × (x : Self.Value) × (value t ≡ Some x) };

    ghost shaped: { (t : Placed Token) (x : Self.Value) → value t ≡ Some x → one_of shapes t ≡ true };

    /// Whether the token has one of the shapes.
    fn is_shaped(token: &Placed<Token>) -> bool
        ensures { result ≡ one_of shapes token.now };

    /// The value of the token, where it is of the kind.
    fn value(alloc: Global, token: &Placed<Token>) -> Result<Option<Self::Value>, NoMemory>
        ensures { IfOk result (λ found. found ≡ value token.now) };
}

/// One token of the kind.
pub struct Leaf<T> {
    terminal: PhantomData<T>,
}

impl<T: Terminal> Part for Leaf<T> {
    type Value = T::Value;

    ghost spells = { One T.value };

    ghost starts = { T.shapes };

    ghost goes_on = { [] };

    fn stands(tokens: &Cursor<'_, Placed<Token>>) -> bool {
        stands::<T>(tokens)
    }

    fn read(
        alloc: Global,
        tokens: &mut Cursor<'_, Placed<Token>>,
    ) -> Result<Self::Value, ReadFault> {
        read_one::<T>(alloc, tokens)
    }

    ghost sample = { one-sample T.value T.sample };

    ghost begun = { one-begins T.value T.shapes T.shaped };
}

impl<T: Terminal> Closed for Leaf<T> {
    ghost closed = { refl };
}

/// The value of the token ahead, where it is of the kind.
fn value_ahead<T: Terminal>(
    alloc: Global,
    tokens: &Cursor<'_, Placed<Token>>,
) -> Result<Option<T::Value>, NoMemory>
    ensures { IfOk result (λ found. found ≡ ahead T.value tokens.now) }
{
    match tokens.peek() {
        Some(token) => T::value(alloc, token),
        None => Ok(None),
    }
}

/// Whether a token of one of the kind's shapes is ahead.
pub fn stands<T: Terminal>(tokens: &Cursor<'_, Placed<Token>>) -> bool
    ensures { result ≡ begins (one_of T.shapes) tokens.now }
{
    match tokens.peek() {
        Some(token) => T::is_shaped(token),
        None => false,
    }
}

/// Reads a token of the kind.
pub fn read_one<T: Terminal>(
    alloc: Global,
    tokens: &mut Cursor<'_, Placed<Token>>,
) -> Result<T::Value, ReadFault>
    ensures { Reads (One T.value) (Without []) tokens.old tokens.new result }
{
    let found = value_ahead::<T>(alloc, tokens)?;
    let Some(value) = found else {
        return Err(ReadFault::Syntax);
    };
    tokens.pass();
    Ok(value)
}
