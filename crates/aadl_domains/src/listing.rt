//! Which components of an instance are listed, and how many there are.

ghost use Rattle.std.specs.Prelude.{◌≡◌, ℕ, List, length, IfOk};
ghost use Rattle.aadl_domains.specs.Components.{at_subcomponent, inside_implementation, led_to, implementation_in, counted};
ghost use Rattle.aadl_domains.specs.Counting.{AreCounts, AreRounds};

use crate::counts::Counts;
use crate::sought::Sought;
use aadl_names::{ClassRow, Resolved, Tables, at_row};
use aadl_tree::Category;
use hw_text::{NoMemory, Rows};
use std::alloc::Global;

/// How many levels of an instance are looked at: a path leads through 32 systems at most.
pub const LEVELS: usize = 33;

/// A model, and what is looked for in its instances.
#[derive(Clone, Copy)]
pub struct Listing<'a> {
    pub tables: &'a Tables<'a>,
    pub resolved: &'a Resolved,
    pub sought: Sought,
}

impl<'a> Listing<'a> {
    /// The implementation of a subcomponent that is a system.
    pub fn led_to(&self, subcomponent: usize, category: Category) -> Option<usize>
        ensures { result ≡ led_to self.now.resolved.now subcomponent category }
    {
        if category != Category::System {
            return None;
        }
        implementation_in(at_row(self.resolved.classes.rows(), subcomponent)?)
    }

    /// How many components stand at and below a subcomponent.
    pub fn worth(&self, below: &Counts, subcomponent: usize, category: Category) -> u64
        ensures { (inside : ℕ → List (List ℕ)) → AreCounts below.now inside → result ≡ counted (length (at_subcomponent self.now.sought inside self.now.resolved.now subcomponent category)) }
    {
        if self.sought.is(category) {
            return 1;
        }
        match self.led_to(subcomponent, category) {
            Some(implementation) => below.of(implementation),
            None => 0,
        }
    }

    /// How many stand inside of each implementation, one level deeper.
    fn deeper(&self, alloc: Global, below: &Counts) -> Result<Counts, NoMemory>
        ensures { IfOk result (λ counts. (inside : ℕ → List (List ℕ)) → AreCounts below.now inside → AreCounts counts (inside_implementation self.now.sought inside self.now.tables.now self.now.resolved.now)) }
    {
        let mut counts = Counts::none(alloc, self.tables.implementations.len())?;
        for (at, row) in self.tables.subcomponents.rows().iter().enumerate() {
            let worth = self.worth(below, at, row.part.get().category);
            counts.add(row.owner, worth);
        }
        Ok(counts)
    }

    /// How many stand inside of each implementation, by depth.
    pub fn rounds(&self, alloc: Global) -> Result<Rows<Counts>, NoMemory>
        ensures long { IfOk result (λ rounds. length rounds ≡ 34) }
        ensures counts { IfOk result (λ rounds. AreRounds self.now.sought self.now.tables.now self.now.resolved.now rounds) }
    {
        let mut rounds = Rows::new(alloc);
        rounds.push(Counts::none(alloc, self.tables.implementations.len())?)?;
        for depth in 0..LEVELS {
            let next = self.deeper(alloc, &rounds.rows()[depth])?;
            rounds.push(next)?;
        }
        Ok(rounds)
    }
}

fn implementation_in(class: ClassRow) -> Option<usize>
    ensures { result ≡ implementation_in class }
{
    match class {
        ClassRow::Base | ClassRow::Type(_) => None,
        ClassRow::Implementation(number) => Some(number),
    }
}
