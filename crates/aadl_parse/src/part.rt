//! The parts of which a grammar is made: what tokens spell, and how they are read.

ghost use Rattle.std.specs.Prelude.{◌≡◌, ℕ, true, List, []};
ghost use Rattle.hw_text.specs.declared.placed.Placed.{Placed};
ghost use Rattle.hw_text.specs.Reading.{Reads, Begins, begins};
ghost use Rattle.aadl_tree.specs.declared.token.Token.{Token};
ghost use Rattle.aadl_parse.specs.Shapes.{one_of, Without, is_disjoint};

use aadl_tree::Token;
use hw_text::{Cursor, Placed, ReadFault};
use std::alloc::Global;

/// A part of the grammar of models. None of its texts is empty.
pub trait Part {
    /// What a text of the part stands for.
    type Value: Drop;

    /// The texts of a value.
    ghost spells: { Self.Value → List (Placed Token) → Type 0 };

    /// The shapes of the first tokens of texts.
    ghost starts: { List (List ℕ) };

    /// The shapes of tokens with which a text may go on where another text ends.
    ghost goes_on: { List (List ℕ) };

    ghost sample: { (x : Self.Value) × (w : List (Placed Token)) × spells x w };

    ghost begun: { Begins (one_of starts) true spells };

    /// Whether a token stands ahead with which a text of the part may begin.
    fn stands(tokens: &Cursor<'_, Placed<Token>>) -> bool
        ensures { result ≡ begins (one_of starts) tokens.now };

    /// Reads a text of the part.
    fn read(alloc: Global, tokens: &mut Cursor<'_, Placed<Token>>) -> Result<Self::Value, ReadFault>
        ensures { Reads spells (Without goes_on) tokens.old tokens.new result };
}

/// A part no text of which goes on where another one ends.
pub trait Closed: Part {
    ghost closed: { Self.goes_on ≡ [] };
}

/// A part that begins with no token with which the other may go on.
pub trait Behind<A: Part>: Part {
    ghost apart: { is_disjoint Self.starts A.goes_on ≡ true };
}
