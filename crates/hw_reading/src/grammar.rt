//! Whole lists of tokens, for each grammar.

ghost use Rattle.std.specs.Prelude.{List, IfOk};
ghost use Rattle.hw_text.specs.declared.placed.Placed.{Placed};
ghost use Rattle.hw_text.specs.Reading.{Reads, TheEnd};
ghost use Rattle.hw_text.specs.WholeLists.{IsWhole};

use hw_text::{Cursor, NoMemory, Placed, ReadFault, Whole};
use std::alloc::Global;

/// Which tokens are a text of which value.
pub trait Grammar {
    type Token;

    type Value: Drop;

    ghost spells: { Self → Self.Value → List (Placed Self.Token) → Type 0 };

    /// Reads a text behind which nothing stands.
    fn read(
        &self,
        alloc: Global,
        tokens: &mut Cursor<'_, Placed<Self::Token>>,
    ) -> Result<Self::Value, ReadFault>
        ensures { Reads (spells self.now) TheEnd tokens.old tokens.new result };
}

/// Reads all of the tokens as one text.
pub fn read_whole<G: Grammar>(
    grammar: &G,
    alloc: Global,
    tokens: &[Placed<G::Token>],
) -> Result<Whole<G::Value>, NoMemory>
    ensures { IfOk result (λ whole. IsWhole (G.spells grammar.now) tokens.now whole) }
{
    let mut cursor = Cursor::new(tokens);
    match grammar.read(alloc, &mut cursor) {
        Ok(value) => {
            if cursor.left() == 0 {
                Ok(Whole::Text(value))
            } else {
                Ok(Whole::Stuck(tokens.len() - cursor.left()))
            }
        }
        Err(ReadFault::Syntax) => Ok(Whole::Stuck(tokens.len() - cursor.left())),
        Err(ReadFault::NoMemory) => Err(NoMemory),
    }
}
