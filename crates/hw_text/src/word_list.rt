//! A list of words.

ghost use Rattle.std.specs.Prelude.{◌≡◌, [], ◌∷◌, ◌++◌, OnOk, OnErr};

use crate::{ByteList, NoMemory, Rows};
use std::alloc::Global;
use std::marker::Model;

/// Words, each a list of bytes, as those of a command line.
#[derive(Debug, Drop)]
pub struct WordList {
    words: Rows<ByteList>,
}

impl Model for WordList {
    ghost use Rattle.std.specs.Prelude.{List, ℕ};

    ghost Value = { List (List ℕ) };

    ghost view = { λ w. w.words };
}

impl WordList {
    /// The empty list, which takes no memory.
    pub fn new(alloc: Global) -> Self
        ensures { result ≡ [] }
    {
        WordList {
            words: Rows::new(alloc),
        }
    }

    pub fn rows(&self) -> &[ByteList]
        ensures { result.now ≡ self.now }
    {
        self.words.rows()
    }

    /// Appends one word.
    pub fn push(&mut self, bytes: &[u8]) -> Result<(), NoMemory>
        ensures ok { OnOk result (self.new ≡ self.old ++ bytes.now ∷ []) }
        ensures err { OnErr result (self.new ≡ self.old) }
    {
        let word = ByteList::of(self.words.allocator(), bytes)?;
        self.words.push(word)
    }
}
