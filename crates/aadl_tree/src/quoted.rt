//! Texts between quotes.

ghost use Rattle.std.specs.Prelude.{◌≡◌, length, IfOk};
ghost use Rattle.aadl_tree.specs.Text.{quotable_length};

use hw_text::{ByteList, NoMemory};
use std::alloc::Global;
use std::marker::Model;

/// What stands between the quotes of a text: printable ASCII but for `"`, TAB and CR.
#[derive(Debug, Drop)]
pub struct Quoted {
    bytes: ByteList,
}

impl Model for Quoted {
    ghost use Rattle.std.specs.Prelude.{◌≡◌, List, ℕ, length};
    ghost use Rattle.aadl_tree.specs.Text.{quotable_length};

    ghost Value = { List ℕ };

    ghost view = { λ q. q.bytes };

    ghost invariant = { λ q. quotable_length q.bytes ≡ length q.bytes };
}

impl Quoted {
    /// The text of these bytes.
    pub fn of(alloc: Global, bytes: &[u8]) -> Result<Quoted, NoMemory>
        requires { quotable_length bytes.now ≡ length bytes.now }
        ensures { IfOk result (λ text. text ≡ bytes.now) }
    {
        Ok(Quoted {
            bytes: ByteList::of(alloc, bytes)?,
        })
    }

    pub fn rows(&self) -> &[u8]
        ensures bytes { result.now ≡ self.now }
        ensures plain { quotable_length self.now ≡ length self.now }
    {
        self.bytes.rows()
    }
}
