//! The reading of whole lists of tokens.

ghost use Rattle.std.specs.Prelude.{IfOk};
ghost use Rattle.hw_text.specs.WholeLists.{IsWhole};

use crate::part::{Closed, Part};
use aadl_tree::Token;
use hw_text::{Cursor, NoMemory, Placed, ReadFault, Whole};
use std::alloc::Global;

/// Reads all of the tokens as one text of the part.
pub fn read_whole<P: Closed>(
    alloc: Global,
    tokens: &[Placed<Token>],
) -> Result<Whole<P::Value>, NoMemory>
    ensures { IfOk result (λ whole. IsWhole P.Part.spells tokens.now whole) }
{
    let mut cursor = Cursor::new(tokens);
    match P::read(alloc, &mut cursor) {
        Ok(value) => {
            if cursor.left() == 0 {
                Ok(Whole::Text(value))
            } else {
                Ok(Whole::Stuck(tokens.len() - cursor.left()))
            }
        }
        Err(ReadFault::Syntax) => Ok(Whole::Stuck(tokens.len() - cursor.left())),
        Err(ReadFault::NoMemory) => Err(NoMemory),
    }
}
