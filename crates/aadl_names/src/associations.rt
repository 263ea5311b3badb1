//! The table of property associations.

ghost use Rattle.std.specs.Prelude.{◌≡◌, ◌++◌, map, OnOk};
ghost use Rattle.aadl_names.specs.TableRows.{association_row, rows_in_braces};

use crate::element::Element;
use crate::held::Held;
use crate::part::Part;
use aadl_tree::Association;
use hw_text::{NoMemory, Rows};

/// An association, and where it stands: in the properties of a type or an implementation, or in the
/// braces behind a part.
#[derive(Drop)]
pub struct AssociationRow<'a> {
    pub holder: Element,
    pub association: Held<'a, Association>,
}

/// Appends the associations that stand at one element.
pub fn push_associations<'a>(
    rows: &mut Rows<AssociationRow<'a>>,
    holder: Element,
    associations: &'a [Association],
) -> Result<(), NoMemory>
    ensures { OnOk result (rows.new ≡ rows.old ++ map (association_row holder) associations.now) }
{
    for association in associations {
        rows.push(AssociationRow {
            holder,
            association: Held::new(association),
        })?;
    }
    Ok(())
}

/// Appends the associations in the braces of these parts.
pub fn push_braces<'a, T: Part>(
    rows: &mut Rows<AssociationRow<'a>>,
    owner: usize,
    parts: &'a [T],
) -> Result<(), NoMemory>
    ensures { OnOk result (rows.new ≡ rows.old ++ rows_in_braces T.own_of (T.element_of owner) 0 parts.now) }
{
    for (number, part) in parts.iter().enumerate() {
        push_associations(rows, T::element(owner, number), part.own())?;
    }
    Ok(())
}
