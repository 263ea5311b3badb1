//! Whether a row lies on a loop, by a search of all that it leads to.

ghost use Rattle.std.specs.Prelude.{◌≡◌, ◌≢◌, ◌↔◌, ◌<◌, true, false, length, IsTrue, IfOk, OnOk, All, Contains};
ghost use Rattle.aadl_loops.specs.Loops.{IsOnLoop};
ghost use Rattle.aadl_loops.specs.Met.{Meets};

use crate::reached::Reached;
use hw_text::{NoMemory, Rows};
use std::alloc::Global;

/// Whether a path leads from the row back to it.
pub fn is_on_loop(alloc: Global, edges: &[Rows<usize>], row: usize) -> Result<bool, NoMemory>
    requires { row < length edges.now }
    ensures { IfOk result (λ on. IsTrue on ↔ IsOnLoop edges.now row) }
{
    let mut reached = Reached::new(alloc, edges.len())?;
    reached.meet(row)?;
    let mut at = 0;
    while at < reached.len() {
        let next = reached.row(at);
        if leads_back(&mut reached, edges[next].rows(), row)? {
            return Ok(true);
        }
        at += 1;
    }
    Ok(false)
}

/// Meets all of these rows, but where this one is among them.
fn leads_back(reached: &mut Reached, leads: &[usize], row: usize) -> Result<bool, NoMemory>
    ensures back { IfOk result (λ back. back ≡ true → Contains leads.now row) }
    ensures other { IfOk result (λ back. back ≡ false → All (λ lead. (lead ≢ row) × (lead < reached.old.limit → Contains reached.new.rows lead)) leads.now) }
    ensures more { OnOk result (Meets reached.old reached.new leads.now) }
{
    for &lead in leads {
        if lead == row {
            return Ok(true);
        }
        reached.meet(lead)?;
    }
    Ok(false)
}
