//! Systems that lie too deep.

ghost use Rattle.std.specs.Prelude.{◌≡◌, ℕ, List, slice_get, IfOk};
ghost use Rattle.aadl_names.specs.declared.resolved.Resolved.{Resolved as ResolvedValue};
ghost use Rattle.aadl_timing.specs.Depths.{systems_at, systems_inside, systems_of_depth, too_deep, deep_among, AreFirsts};

use crate::firsts::Firsts;
use crate::instance::Instance;
use crate::limits::limit;
use aadl_tree::Category;
use hw_text::{NoMemory, Refusal};
use std::alloc::Global;

/// The depth at which no system may lie; one that is directly in the root has depth 1.
const TOO_DEEP: u32 = 33;

impl<'a> Instance<'a> {
    /// The refusal of the first system at depth 33, where there is one.
    pub fn first_deep(&self, alloc: Global, root: usize) -> Result<Option<Refusal>, NoMemory>
        ensures { IfOk result (λ refusal. refusal ≡ deep_among self.now.tables.now (too_deep self.now.tables.now self.now.resolved.now root)) }
    {
        let Some(row) = self.first_too_deep(alloc, root)? else {
            return Ok(None);
        };
        let Some(part) = self.part_at(row) else {
            return Ok(None);
        };
        let refusal = limit(alloc, part.name.place, "depth", 33, 32)?;
        Ok(Some(refusal))
    }

    /// The row of the first system at depth 33.
    fn first_too_deep(&self, alloc: Global, root: usize) -> Result<Option<usize>, NoMemory>
        ensures { IfOk result (λ row. row ≡ slice_get (too_deep self.now.tables.now self.now.resolved.now root) 0) }
    {
        let firsts = self.deep_firsts(alloc)?;
        Ok(firsts.of(root))
    }

    /// The first system at depth 33 of each implementation.
    fn deep_firsts(&self, alloc: Global) -> Result<Firsts, NoMemory>
        ensures { IfOk result (λ firsts. AreFirsts firsts (systems_of_depth self.now.tables.now self.now.resolved.now 33)) }
    {
        let mut firsts = Firsts::none(alloc, self.tables.implementations.len())?;
        for levels in 0..TOO_DEEP {
            firsts = self.next_firsts(alloc, &firsts, levels)?;
        }
        Ok(firsts)
    }

    /// The first systems so many levels below the subcomponents of each implementation.
    fn next_firsts(&self, alloc: Global, below: &Firsts, levels: u32) -> Result<Firsts, NoMemory>
        ensures { IfOk result (λ firsts. (inside : ℕ → List ℕ) → AreFirsts below.now inside → AreFirsts firsts (systems_inside inside self.now.tables.now self.now.resolved.now levels)) }
    {
        let mut firsts = Firsts::none(alloc, self.tables.implementations.len())?;
        for (at, row) in self.tables.subcomponents.rows().iter().enumerate() {
            let found = self.first_at(below, levels, at, row.part.get().category);
            firsts.meet(row.owner, found);
        }
        Ok(firsts)
    }

    /// The first system so many levels below a subcomponent.
    fn first_at(&self, below: &Firsts, levels: u32, row: usize, category: Category) -> Option<usize>
        ensures { (inside : ℕ → List ℕ) → AreFirsts below.now inside → result ≡ slice_get (systems_at inside self.now.resolved.now levels row category) 0 }
    {
        if levels == 0 {
            return itself(row, category);
        }
        match self.led_to(row, category) {
            Some(inner) => below.of(inner),
            None => None,
        }
    }
}

/// The subcomponent, where it is a system.
fn itself(row: usize, category: Category) -> Option<usize>
    ensures { (inside : ℕ → List ℕ) (to : ResolvedValue) → result ≡ slice_get (systems_at inside to 0 row category) 0 }
{
    if category == Category::System {
        Some(row)
    } else {
        None
    }
}
