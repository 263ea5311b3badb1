//! With which implementations an instance may begin.

ghost use Rattle.std.specs.Prelude.{◌≡◌, ℕ, ◌<◌, Bool, length, IfOk};
ghost use Rattle.aadl_domains.specs.Counting.{has};
ghost use Rattle.aadl_domains.specs.Roots.{uses_from, roots_of};

use crate::marks::Marks;
use aadl_names::{ClassRow, Resolved, Tables, at_row};
use aadl_tree::Category;
use hw_text::{NoMemory, Rows};
use std::alloc::Global;

/// The rows of the system implementations that no other implementation uses, in text order.
pub fn roots(
    alloc: Global,
    tables: &Tables<'_>,
    resolved: &Resolved,
) -> Result<Rows<usize>, NoMemory>
    ensures { IfOk result (λ roots. roots ≡ roots_of tables.now resolved.now) }
{
    let used = used(alloc, tables, resolved)?;
    let mut roots = Rows::new(alloc);
    for (row, implementation) in tables.implementations.rows().iter().enumerate() {
        if implementation.get().category == Category::System && !used.has(row) {
            roots.push(row)?;
        }
    }
    Ok(roots)
}

/// Which implementations others use.
fn used(alloc: Global, tables: &Tables<'_>, resolved: &Resolved) -> Result<Marks, NoMemory>
    ensures { IfOk result (λ used. (n : ℕ) → n < length tables.now.implementations → has used n ≡ uses_from resolved.now n 0 tables.now.subcomponents) }
{
    let mut used = Marks::none(alloc, tables.implementations.len())?;
    for (at, row) in tables.subcomponents.rows().iter().enumerate() {
        if let Some(ClassRow::Implementation(other)) = at_row(resolved.classes.rows(), at) {
            if other != row.owner {
                used.add(other);
            }
        }
    }
    Ok(used)
}
