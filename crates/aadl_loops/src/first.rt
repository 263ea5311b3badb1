//! The first row on a loop.

ghost use Rattle.std.specs.Prelude.{IfOk, MatchOption};
ghost use Rattle.aadl_loops.specs.Loops.{HasNoLoop, IsFirstOnLoop};

use crate::pass::labels;
use crate::rises::free_before;
use crate::search::is_on_loop;
use hw_text::{NoMemory, Rows};
use std::alloc::Global;

/// The first row of a graph that lies on a loop; None where there is no loop. A row leads to the
/// rows of these numbers; a number past the last row leads nowhere. One pass labels the rows so
/// that mostly at the first search the answer is there.
pub fn first_on_loop(alloc: Global, edges: &[Rows<usize>]) -> Result<Option<usize>, NoMemory>
    ensures { IfOk result (λ found. MatchOption found (HasNoLoop edges.now) (IsFirstOnLoop edges.now)) }
{
    let labels = labels(alloc, edges)?;
    for row in free_before(edges, labels.as_slice())..edges.len() {
        if is_on_loop(alloc, edges, row)? {
            return Ok(Some(row));
        }
    }
    Ok(None)
}
