//! The threads for which processes stand.

ghost use Rattle.std.specs.Prelude.{◌≡◌, ◌∷◌, ◌++◌, [], IfOk};
ghost use Rattle.aadl_timing.specs.Located.{thread_row, thread_at};

use crate::instance::{Instance, implementation_in};
use aadl_domains::thread_of;
use aadl_names::{Component, at_row};
use aadl_tree::Category;
use hw_text::NoMemory;
use std::alloc::Global;

impl<'a> Instance<'a> {
    /// The thread of the process to which a path leads; where it leads to another component, none.
    pub fn thread_at(
        &self,
        alloc: Global,
        path: &[usize],
    ) -> Result<Option<Component<'a>>, NoMemory>
        ensures { IfOk result (λ thread. thread ≡ thread_at self.now.tables.now self.now.resolved.now path.now) }
    {
        let Some(&last) = path.last() else {
            return Ok(None);
        };
        match self.thread_row(last) {
            Some(thread) => {
                let whole = extended(alloc, path, thread)?;
                self.component_at(alloc, whole.as_slice())
            }
            None => Ok(None),
        }
    }

    /// The row of the thread of a process.
    pub fn thread_row(&self, row: usize) -> Option<usize>
        ensures { result ≡ thread_row self.now.tables.now self.now.resolved.now row }
    {
        if self.part_at(row)?.category != Category::Process {
            return None;
        }
        let implementation = implementation_in(at_row(self.resolved.classes.rows(), row)?)?;
        thread_of(self.tables.subcomponents.rows(), implementation)
    }
}

/// The path with one more row.
pub fn extended(alloc: Global, path: &[usize], row: usize) -> Result<Vec<usize>, NoMemory>
    ensures { IfOk result (λ whole. whole.items ≡ path.now ++ row ∷ []) }
{
    let mut whole = Vec::from_slice(alloc, path)?;
    whole.push(row)?;
    Ok(whole)
}
