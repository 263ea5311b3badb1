//! Counts of components by the implementations that hold them.

ghost use Rattle.std.specs.Prelude.{◌≡◌, ℕ, length, IfOk};
ghost use Rattle.aadl_domains.specs.Counting.{count_of, added};

use hw_text::NoMemory;
use std::alloc::Global;
use std::marker::Model;

/// One count for each implementation, which stands at the last number where there are more.
#[derive(Drop)]
pub struct Counts {
    counts: Vec<u64>,
}

impl Model for Counts {
    ghost use Rattle.std.specs.Prelude.{List, ℕ};

    ghost Value = { List ℕ };

    ghost view = { λ c. c.counts.items };
}

impl Counts {
    /// Nothing was counted.
    pub fn none(alloc: Global, implementations: usize) -> Result<Self, NoMemory>
        ensures long { IfOk result (λ counts. length counts ≡ implementations) }
        ensures none { IfOk result (λ counts. (n : ℕ) → count_of counts n ≡ 0) }
    {
        Ok(Counts {
            counts: Vec::from_elem(alloc, 0, implementations)?,
        })
    }

    pub fn of(&self, implementation: usize) -> u64
        ensures { result ≡ count_of self.now implementation }
    {
        match self.counts.get(implementation) {
            Some(&count) => count,
            None => 0,
        }
    }

    /// Counts more in an implementation, where there is one.
    pub fn add(&mut self, implementation: usize, more: u64)
        ensures { self.new ≡ added self.old implementation more }
    {
        if implementation < self.counts.len() {
            self.counts[implementation] = self.counts[implementation].saturating_add(more);
        }
    }
}
