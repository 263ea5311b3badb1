//! A sink in memory, with room for so many bytes, whose writes fail at a chosen number.

ghost use Rattle.std.specs.Prelude.{◌≡◌, ◌↔◌, ◌≤◌, Some, IfOk, IsErr};
ghost use Rattle.hw_io.specs.MemSink.{empty_sink, fitting, Fails, after_write};

use crate::{Sink, SinkFault};
use hw_text::NoMemory;
use std::alloc::Global;
use std::marker::Model;

/// Bytes in memory that was reserved for them. A write takes as much of its piece as finds room, and no
/// memory. Writes are counted from 0; their number and the count of faults stop at their last value, and
/// from then on each write has that number.
#[derive(Debug, Drop)]
pub struct MemSink {
    bytes: Vec<u8>,
    cap: usize,
    writes: u64,
    failing_write: Option<u64>,
    faults: u64,
}

impl Model for MemSink {
    ghost use Rattle.std.specs.Prelude.{◌≤◌, length, vec_capacity};
    ghost use Rattle.hw_io.specs.MemSink.{SinkState};

    ghost Value = { SinkState };

    ghost view = { λ s. record {
      bytes = s.bytes.items;
      cap = s.cap;
      writes = s.writes;
      failing_write = s.failing_write;
      faults = s.faults;
    } };

    ghost invariant = { λ s. (length s.bytes.items ≤ s.cap) × (s.cap ≤ vec_capacity s.bytes) };
}

impl MemSink {
    /// A sink with room for `cap` bytes, all of which is taken here.
    pub fn new(alloc: Global, cap: usize) -> Result<Self, NoMemory>
        ensures { IfOk result (λ sink. sink ≡ empty_sink cap) }
    {
        Ok(MemSink {
            bytes: Vec::with_capacity(alloc, cap)?,
            cap,
            writes: 0,
            failing_write: None,
            faults: 0,
        })
    }

    /// The write with this number fails, beside those that find no room.
    pub fn fail_write(&mut self, k: u64)
        ensures { self.new ≡ record self.old { failing_write = Some k } }
    {
        self.failing_write = Some(k);
    }

    /// What was written.
    pub fn bytes(&self) -> &[u8]
        ensures { result.now ≡ self.now.bytes }
    {
        self.bytes.as_slice()
    }
}

impl Sink for MemSink {
    ghost means = { λ s. record { written = Some s.bytes; faults = s.faults } };

    fn write(&mut self, bytes: &[u8]) -> Result<usize, SinkFault>
        ensures fault { IsErr result ↔ Fails self.old bytes.now }
        ensures taken { IfOk result (λ n. n ≡ fitting self.old bytes.now) }
        ensures state { self.new ≡ after_write self.old bytes.now result }
        ensures counted { self.old.faults ≤ self.new.faults }
    {
        let call = self.writes;
        self.writes = call.saturating_add(1);
        let room = self.cap - self.bytes.len();
        if self.failing_write == Some(call) || (room == 0 && !bytes.is_empty()) {
            self.faults = self.faults.saturating_add(1);
            return Err(SinkFault);
        }
        let (fitting, _) = bytes.split_at(room.min(bytes.len()));
        self.bytes.extend_from_slice(fitting).unwrap();
        Ok(fitting.len())
    }
}
