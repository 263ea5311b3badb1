//! The first systems that implementations hold.

ghost use Rattle.std.specs.Prelude.{◌≡◌, ℕ, None, length, IfOk};
ghost use Rattle.aadl_names.specs.Meanings.{first_there};
ghost use Rattle.aadl_timing.specs.Depths.{first_of, met};

use hw_text::NoMemory;
use std::alloc::Global;
use std::marker::Model;

/// For each implementation, the row of a system inside of it, where there is one.
#[derive(Drop)]
pub struct Firsts {
    systems: Vec<Option<usize>>,
}

impl Model for Firsts {
    ghost use Rattle.std.specs.Prelude.{List, Option, ℕ};

    ghost Value = { List (Option ℕ) };

    ghost view = { λ f. f.systems.items };
}

impl Firsts {
    pub fn none(alloc: Global, implementations: usize) -> Result<Self, NoMemory>
        ensures long { IfOk result (λ firsts. length firsts ≡ implementations) }
        ensures none { IfOk result (λ firsts. (n : ℕ) → first_of firsts n ≡ None) }
    {
        Ok(Firsts {
            systems: Vec::from_elem(alloc, None, implementations)?,
        })
    }

    pub fn of(&self, implementation: usize) -> Option<usize>
        ensures { result ≡ first_of self.now implementation }
    {
        match self.systems.get(implementation) {
            Some(&system) => system,
            None => None,
        }
    }

    /// A system was met inside of an implementation, where one is told.
    pub fn meet(&mut self, implementation: usize, found: Option<usize>)
        ensures { self.new ≡ met self.old implementation found }
    {
        if implementation < self.systems.len() {
            self.systems[implementation] = first_there(self.systems[implementation], found);
        }
    }
}

fn first_there(first: Option<usize>, other: Option<usize>) -> Option<usize>
    ensures { result ≡ first_there first other }
{
    match first {
        Some(found) => Some(found),
        None => other,
    }
}
