//! The thread of a process, and the rows of ports.

ghost use Rattle.std.specs.Prelude.{◌≡◌, IfOk};
ghost use Rattle.aadl_domains.specs.Ports.{rows_of, thread_of};

use aadl_names::PartRow;
use aadl_tree::{Category, Subcomponent};
use hw_text::{NoMemory, Rows};
use std::alloc::Global;

/// The rows of the parts of a declaration, in order: as the ports of a type.
pub fn rows_of<T>(
    alloc: Global,
    rows: &[PartRow<'_, T>],
    owner: usize,
) -> Result<Rows<usize>, NoMemory>
    ensures { IfOk result (λ own. own ≡ rows_of owner rows.now) }
{
    let mut own = Rows::new(alloc);
    for (at, row) in rows.iter().enumerate() {
        if row.owner == owner {
            own.push(at)?;
        }
    }
    Ok(own)
}

/// The row of the thread of a process, given its implementation.
pub fn thread_of(rows: &[PartRow<'_, Subcomponent>], implementation: usize) -> Option<usize>
    ensures { result ≡ thread_of implementation rows.now }
{
    for (at, row) in rows.iter().enumerate() {
        if row.owner == implementation && row.part.get().category == Category::Thread {
            return Some(at);
        }
    }
    None
}
