//! The texts that describe clauses.

ghost use Rattle.std.specs.Prelude.{◌≡◌, length, IfOk};
ghost use Rattle.hw_text.specs.Text.{text_length};

use hw_text::{ByteList, NoMemory};
use std::alloc::Global;
use std::marker::Model;

/// What stands between the quotes of a text: bytes without `"` and line ends.
#[derive(Drop)]
pub struct Description {
    bytes: ByteList,
}

impl Model for Description {
    ghost use Rattle.std.specs.Prelude.{◌≡◌, List, ℕ, length};
    ghost use Rattle.hw_text.specs.Text.{text_length};

    ghost Value = { List ℕ };

    ghost view = { λ d. d.bytes };

    ghost invariant = { λ d. text_length d.bytes ≡ length d.bytes };
}

impl Description {
    /// The description of these bytes.
    pub fn of(alloc: Global, bytes: &[u8]) -> Result<Description, NoMemory>
        requires { text_length bytes.now ≡ length bytes.now }
        ensures { IfOk result (λ description. description ≡ bytes.now) }
    {
        Ok(Description {
            bytes: ByteList::of(alloc, bytes)?,
        })
    }

    /// The bytes between the quotes.
    pub fn rows(&self) -> &[u8]
        ensures bytes { result.now ≡ self.now }
        ensures plain { text_length self.now ≡ length self.now }
    {
        self.bytes.rows()
    }

    /// An equal description.
    pub fn copy(&self) -> Result<Description, NoMemory>
        ensures { IfOk result (λ copy. copy ≡ self.now) }
    {
        Ok(Description {
            bytes: self.bytes.copy()?,
        })
    }
}
