//! Units of C, and their canonical text.

ghost use Rattle.std.specs.Prelude.{◌≡◌, IfOk, true, OnOk};
ghost use Rattle.c_tree.specs.Items.{unit_text};

use crate::item::Item;
use hw_text::{NoMemory, Place, Rows, TextBuf};
use std::alloc::Global;

/// A unit of C text.
#[derive(Debug, Drop)]
pub struct Unit {
    pub items: Rows<Item>,
    /// Where the text ends.
    pub end: Place,
}

/// The canonical text of a unit: four spaces a depth, and parentheses round each operand that is a
/// binary operation.
pub fn print(alloc: Global, unit: &Unit) -> Result<TextBuf, NoMemory>
    ensures { IfOk result (λ text. text ≡ unit_text unit.now) }
{
    let mut out = TextBuf::new(alloc);
    for item in unit.items.rows() {
        item.print(alloc, &mut out)?;
    }
    Ok(out)
}
