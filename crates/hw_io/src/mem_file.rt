//! One file of a store in memory.

ghost use Rattle.std.specs.Prelude.{◌≡◌, IfOk};

use hw_text::{ByteList, NoMemory};
use std::alloc::Global;

/// A name and its bytes.
#[derive(Debug, Drop)]
pub struct MemFile {
    pub name: ByteList,
    pub bytes: ByteList,
}

impl MemFile {
    pub fn new(alloc: Global, name: &str, bytes: &[u8]) -> Result<Self, NoMemory>
        ensures name { IfOk result (λ file. file.name ≡ name.now) }
        ensures bytes { IfOk result (λ file. file.bytes ≡ bytes.now) }
    {
        Ok(MemFile {
            name: ByteList::of(alloc, name.as_bytes())?,
            bytes: ByteList::of(alloc, bytes)?,
        })
    }
}
