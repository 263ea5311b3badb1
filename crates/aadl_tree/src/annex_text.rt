//! The texts of annexes.

ghost use Rattle.std.specs.Prelude.{◌≡◌, length, IfOk};
ghost use Rattle.aadl_tree.specs.Text.{annex_length};

use hw_text::{ByteList, NoMemory};
use std::alloc::Global;
use std::marker::Model;

/// What stands between `{**` and `**}`: any bytes that have no `**}` in them.
#[derive(Debug, Drop)]
pub struct AnnexText {
    bytes: ByteList,
}

impl Model for AnnexText {
    ghost use Rattle.std.specs.Prelude.{◌≡◌, List, ℕ, length};
    ghost use Rattle.aadl_tree.specs.Text.{annex_length};

    ghost Value = { List ℕ };

    ghost view = { λ t. t.bytes };

    ghost invariant = { λ t. annex_length t.bytes ≡ length t.bytes };
}

impl AnnexText {
    /// The text of these bytes.
    pub fn of(alloc: Global, bytes: &[u8]) -> Result<AnnexText, NoMemory>
        requires { annex_length bytes.now ≡ length bytes.now }
        ensures { IfOk result (λ text. text ≡ bytes.now) }
    {
        Ok(AnnexText {
            bytes: ByteList::of(alloc, bytes)?,
        })
    }

    pub fn rows(&self) -> &[u8]
        ensures bytes { result.now ≡ self.now }
        ensures open { annex_length self.now ≡ length self.now }
    {
        self.bytes.rows()
    }
}
