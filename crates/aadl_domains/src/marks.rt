//! Marks at rows of a table.

ghost use Rattle.std.specs.Prelude.{◌≡◌, ℕ, true, false, length, slice_set, IfOk};
ghost use Rattle.aadl_domains.specs.Counting.{has};

use hw_text::NoMemory;
use std::alloc::Global;
use std::marker::Model;

/// For each row, whether it is marked.
#[derive(Drop)]
pub struct Marks {
    marks: Vec<bool>,
}

impl Model for Marks {
    ghost use Rattle.std.specs.Prelude.{List, Bool};

    ghost Value = { List Bool };

    ghost view = { λ m. m.marks.items };
}

impl Marks {
    pub fn none(alloc: Global, rows: usize) -> Result<Self, NoMemory>
        ensures long { IfOk result (λ marks. length marks ≡ rows) }
        ensures none { IfOk result (λ marks. (row : ℕ) → has marks row ≡ false) }
    {
        Ok(Marks {
            marks: Vec::from_elem(alloc, false, rows)?,
        })
    }

    pub fn has(&self, row: usize) -> bool
        ensures { result ≡ has self.now row }
    {
        match self.marks.get(row) {
            Some(&mark) => mark,
            None => false,
        }
    }

    /// Marks a row, where there is one.
    pub fn add(&mut self, row: usize)
        ensures { self.new ≡ slice_set self.old row true }
    {
        if row < self.marks.len() {
            self.marks[row] = true;
        }
    }
}
