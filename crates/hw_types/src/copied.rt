//! Copies of lists.

ghost use Rattle.std.specs.Prelude.{◌≡◌, IfOk};

use crate::FieldCell;
use hw_text::{NoMemory, Rows};

/// A value that can be copied, with memory for what it holds.
pub trait Copied: Drop {
    /// An equal value.
    fn copy(&self) -> Result<Self, NoMemory>
        ensures { IfOk result (λ copy. copy ≡ self.now) };
}

impl Copied for u64 {
    fn copy(&self) -> Result<Self, NoMemory> {
        Ok(*self)
    }
}

impl Copied for i128 {
    fn copy(&self) -> Result<Self, NoMemory> {
        Ok(*self)
    }
}

impl Copied for FieldCell {
    fn copy(&self) -> Result<Self, NoMemory> {
        Ok(*self)
    }
}

impl<T: Copied> Copied for Rows<T> {
    fn copy(&self) -> Result<Self, NoMemory> {
        let mut copies = Rows::new(self.allocator());
        for item in self.rows() {
            copies.push(item.copy()?)?;
        }
        Ok(copies)
    }
}
