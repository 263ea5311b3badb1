//! The reading of whole lists of tokens.

ghost use Rattle.std.specs.Prelude.{IfOk};
ghost use Rattle.hw_text.specs.Reading.{Reads, TheEnd};
ghost use Rattle.hw_text.specs.WholeLists.{IsWhole};
ghost use Rattle.c_parse.specs.UnitGrammar.{SpellsUnit};

use crate::items::items;
use crate::token::Token;
use c_tree::{Dialect, Unit};
use hw_text::{Cursor, NoMemory, Place, Placed, ReadFault, Whole};
use std::alloc::Global;

/// Reads a unit, whose text ends there.
fn unit(
    alloc: Global,
    tokens: &mut Cursor<'_, Placed<Token>>,
    dialect: Dialect,
    end: Place,
) -> Result<Unit, ReadFault>
    ensures { Reads (SpellsUnit dialect end) TheEnd tokens.old tokens.new result }
{
    let items = items(alloc, tokens, dialect)?;
    Ok(Unit { items, end })
}

/// Reads all of the tokens as one unit, whose text ends there.
pub fn read_whole(
    alloc: Global,
    tokens: &[Placed<Token>],
    dialect: Dialect,
    end: Place,
) -> Result<Whole<Unit>, NoMemory>
    ensures { IfOk result (λ whole. IsWhole (SpellsUnit dialect end) tokens.now whole) }
{
    let mut cursor = Cursor::new(tokens);
    match unit(alloc, &mut cursor, dialect, end) {
        Ok(value) => {
            if cursor.left() == 0 {
                Ok(Whole::Text(value))
            } else {
                Ok(Whole::Stuck(tokens.len() - cursor.left()))
            }
        }
        Err(ReadFault::Syntax) => Ok(Whole::Stuck(tokens.len() - cursor.left())),
        Err(ReadFault::NoMemory) => Err(NoMemory),
    }
}
