//! Names of C.

ghost use Rattle.std.specs.Prelude.{◌≡◌, true};
ghost use Rattle.c_tree.specs.Names.{is_identifier};

use crate::name_bytes::is_identifier;
use hw_text::{ByteList, NoMemory};
use std::alloc::Global;

/// A name as it is written: letters, digits and underscores that are no word of C.
#[derive(Debug, Drop)]
pub struct Identifier {
    pub bytes: ByteList,
    pub ghost spelled: { is_identifier bytes ≡ true },
}

#[tactic(auto, using(crate::proofs::Spellings::no_identifier, crate::proofs::Spellings::identifier_of_bytes))]
impl Identifier {
    ghost use Rattle.std.specs.Prelude.{◌≡◌, true, IfOk};
    ghost use Rattle.c_tree.specs.Names.{is_identifier};
    ghost use Rattle.c_tree.specs.Spellings.{identifier_of};

    /// The name that the bytes spell, where they spell one.
    pub fn read(alloc: Global, bytes: &[u8]) -> Result<Option<Identifier>, NoMemory>
        ensures { IfOk result (λ found. found ≡ identifier_of bytes.now) }
    {
        if !is_identifier(bytes) {
            return Ok(None);
        }
        let name = Identifier::of(alloc, bytes)?;
        Ok(Some(name))
    }

    /// The name that the bytes are.
    pub fn of(alloc: Global, bytes: &[u8]) -> Result<Identifier, NoMemory>
        requires { is_identifier bytes.now ≡ true }
        ensures { IfOk result (λ name. name.bytes ≡ bytes.now) }
    {
        Ok(Identifier {
            bytes: ByteList::of(alloc, bytes)?,
        })
    }

    pub fn rows(&self) -> &[u8]
        ensures { result.now ≡ self.now.bytes }
    {
        self.bytes.rows()
    }

    /// An equal name.
    pub fn copy(&self) -> Result<Identifier, NoMemory>
        ensures { IfOk result (λ copy. copy ≡ self.now) }
    {
        Ok(Identifier {
            bytes: self.bytes.copy()?,
        })
    }
}
