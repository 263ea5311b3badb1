//! A store in memory, whose calls fail at chosen numbers.

ghost use Rattle.std.specs.Prelude.{◌≡◌, ◌≤◌, true, Some, None, OnOk, OnErr, IfSome, IfNone};
ghost use Rattle.hw_io.specs.MemStore.{empty_store, held_in, with_file, ReadGives, after_read, WriteGives, after_write};

use crate::mem_file::MemFile;
use crate::{ReadAnswer, Store, WriteAnswer};
use hw_text::{ByteList, NoMemory};
use std::alloc::Global;
use std::marker::Model;

/// Files in memory. A call fails at its number alone, counted from 0 for each kind of call. Numbers and
/// counts stop at their last value: from then on each call has that number.
#[derive(Debug, Drop)]
pub struct MemStore {
    files: Vec<MemFile>,
    reads: u64,
    writes: u64,
    failing_read: Option<u64>,
    failing_write: Option<u64>,
    read_faults: u64,
    write_faults: u64,
    absences: u64,
}

impl Model for MemStore {
    ghost use Rattle.hw_io.specs.MemStore.{StoreState};

    ghost Value = { StoreState };

    ghost view = { λ s. record {
      files = s.files.items;
      reads = s.reads;
      writes = s.writes;
      failing_read = s.failing_read;
      failing_write = s.failing_write;
      read_faults = s.read_faults;
      write_faults = s.write_faults;
      absences = s.absences;
    } };
}

impl MemStore {
    /// A store that holds nothing, and none of whose calls fails. It takes no memory.
    pub fn new(alloc: Global) -> Self
        ensures { result ≡ empty_store }
    {
        MemStore {
            files: Vec::new(alloc),
            reads: 0,
            writes: 0,
            failing_read: None,
            failing_write: None,
            read_faults: 0,
            write_faults: 0,
            absences: 0,
        }
    }

    /// Gives a name these bytes. It counts as no call.
    pub fn add(&mut self, name: &str, bytes: &[u8]) -> Result<(), NoMemory>
        ensures ok { OnOk result (self.new ≡ with_file self.old name.now bytes.now) }
        ensures err { OnErr result (self.new ≡ self.old) }
    {
        let file = MemFile::new(*self.files.allocator(), name, bytes)?;
        self.files.insert(0, file)?;
        Ok(())
    }

    /// The read with this number fails, and no other.
    pub fn fail_read(&mut self, k: u64)
        ensures { self.new ≡ record self.old { failing_read = Some k } }
    {
        self.failing_read = Some(k);
    }

    /// The write with this number fails, and no other.
    pub fn fail_write(&mut self, k: u64)
        ensures { self.new ≡ record self.old { failing_write = Some k } }
    {
        self.failing_write = Some(k);
    }

    /// Each file that was added or written, the newest first: a later one hides an earlier one of its
    /// name.
    pub fn files(&self) -> &[MemFile]
        ensures { result.now ≡ self.now.files }
    {
        &self.files
    }

    /// The bytes of a name. It takes no memory.
    pub fn held(&self, name: &str) -> Option<&[u8]>
        ensures some { IfSome result (λ bytes. held_in self.now.files name.now ≡ Some bytes.now) }
        ensures none { IfNone result (held_in self.now.files name.now ≡ None) }
    {
        for file in &self.files {
            if file.name.rows() == name.as_bytes() {
                return Some(file.bytes.rows());
            }
        }
        None
    }
}

impl Store for MemStore {
    ghost means = { λ s. record {
      tells = true;
      held = held_in s.files;
      read_faults = λ _. s.read_faults;
      write_faults = λ _. s.write_faults;
      absences = λ _. s.absences;
    } };

    fn read(&mut self, alloc: Global, name: &str) -> ReadAnswer
        ensures answer { ReadGives self.old name.now result }
        ensures state { self.new ≡ after_read self.old result }
        ensures read_faults { self.old.read_faults ≤ self.new.read_faults }
        ensures absences { self.old.absences ≤ self.new.absences }
    {
        let call = self.reads;
        self.reads = call.saturating_add(1);
        if self.failing_read == Some(call) {
            self.read_faults = self.read_faults.saturating_add(1);
            return ReadAnswer::Failed;
        }
        let Some(bytes) = self.held(name) else {
            self.absences = self.absences.saturating_add(1);
            return ReadAnswer::Absent;
        };
        match ByteList::of(alloc, bytes) {
            Ok(copy) => ReadAnswer::Bytes(copy),
            Err(NoMemory) => ReadAnswer::NoMemory,
        }
    }

    fn write(&mut self, _alloc: Global, name: &str, bytes: &[u8]) -> WriteAnswer
        ensures answer { WriteGives self.old result }
        ensures state { self.new ≡ after_write self.old name.now bytes.now result }
        ensures write_faults { self.old.write_faults ≤ self.new.write_faults }
    {
        let call = self.writes;
        self.writes = call.saturating_add(1);
        if self.failing_write == Some(call) {
            self.write_faults = self.write_faults.saturating_add(1);
            return WriteAnswer::Failed;
        }
        match self.add(name, bytes) {
            Ok(()) => WriteAnswer::Done,
            Err(NoMemory) => WriteAnswer::NoMemory,
        }
    }
}
