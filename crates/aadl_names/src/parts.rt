//! Tables of the parts of types and implementations.

ghost use Rattle.std.specs.Prelude.{◌≡◌, ◌++◌, OnOk};
ghost use Rattle.aadl_names.specs.TableRows.{part_rows};

use crate::held::Held;
use aadl_tree::Category;
use hw_text::{NoMemory, Rows};

/// A part, and in which declaration it stands.
#[derive(Drop)]
pub struct PartRow<'a, T> {
    /// The number of the declaration in its table.
    pub owner: usize,
    /// The category of the declaration.
    pub category: Category,
    /// The number of the part among those of its kind there.
    pub number: usize,
    pub part: Held<'a, T>,
}

/// Appends the parts of one declaration.
pub fn push_parts<'a, T>(
    rows: &mut Rows<PartRow<'a, T>>,
    owner: usize,
    category: Category,
    parts: &'a [T],
) -> Result<(), NoMemory>
    ensures { OnOk result (rows.new ≡ rows.old ++ part_rows owner category 0 parts.now) }
{
    for (number, part) in parts.iter().enumerate() {
        rows.push(PartRow {
            owner,
            category,
            number,
            part: Held::new(part),
        })?;
    }
    Ok(())
}
