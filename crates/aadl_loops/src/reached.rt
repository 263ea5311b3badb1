//! The rows that a search has met.

ghost use Rattle.std.specs.Prelude.{◌≡◌, ◌<◌, ◌≤◌, [], ◌∷◌, length, slice_index, IfOk, OnOk, Contains};
ghost use Rattle.aadl_loops.specs.Met.{Meets};

use hw_text::NoMemory;
use std::alloc::Global;
use std::marker::Model;

/// Rows below a limit, each once, in the order in which they were met.
#[derive(Drop)]
pub struct Reached {
    marks: Vec<bool>,
    rows: Vec<usize>,
}

impl Model for Reached {
    ghost use Rattle.std.specs.Prelude.{length};
    ghost use Rattle.aadl_loops.specs.Met.{Met, AreMarked};

    ghost Value = { Met };

    ghost view = { λ r. record { limit = length r.marks.items; rows = r.rows.items } };

    ghost invariant = { λ r. AreMarked r.marks.items r.rows.items };
}

impl Reached {
    /// No rows yet.
    pub fn new(alloc: Global, limit: usize) -> Result<Self, NoMemory>
        ensures { IfOk result (λ reached. reached ≡ record { limit = limit; rows = [] }) }
    {
        Ok(Reached {
            marks: Vec::from_elem(alloc, false, limit)?,
            rows: Vec::new(alloc),
        })
    }

    /// Meets a row, maybe once more.
    pub fn meet(&mut self, row: usize) -> Result<(), NoMemory>
        ensures more { OnOk result (Meets self.old self.new (row ∷ [])) }
        ensures met { OnOk result (row < self.old.limit → Contains self.new.rows row) }
    {
        if row < self.marks.len() && !self.marks[row] {
            self.rows.push(row)?;
            self.marks[row] = true;
        }
        Ok(())
    }

    pub fn len(&self) -> usize
        ensures len { result ≡ length self.now.rows }
        ensures within { result ≤ self.now.limit }
    {
        self.rows.len()
    }

    /// The row that was met as the one of this number.
    pub fn row(&self, number: usize) -> usize
        requires { number < length self.now.rows }
        ensures row { result ≡ slice_index self.now.rows number }
        ensures inside { result < self.now.limit }
    {
        self.rows[number]
    }
}
