//! How often the calls of a store have failed.

ghost use Rattle.std.specs.Prelude.{◌≡◌, ◌≤◌};
ghost use Rattle.hw_io.specs.Counts.{counts_after_read, counts_after_write};

use crate::{ReadAnswer, WriteAnswer};

/// Counts of faults and absences, which stop at their last value.
#[derive(Clone, Copy, Debug, PartialEq, Eq)]
pub struct Counts {
    pub read_faults: u64,
    pub write_faults: u64,
    pub absences: u64,
}

impl Counts {
    /// The counts behind this answer of a read.
    pub fn after_read(self, answer: &ReadAnswer) -> Counts
        ensures exact { result ≡ counts_after_read self answer.now }
        ensures read_faults { self.read_faults ≤ result.read_faults }
        ensures absences { self.absences ≤ result.absences }
    {
        match answer {
            ReadAnswer::Bytes(_) | ReadAnswer::NoMemory => self,
            ReadAnswer::Absent => Counts {
                absences: self.absences.saturating_add(1),
                ..self
            },
            ReadAnswer::Failed => Counts {
                read_faults: self.read_faults.saturating_add(1),
                ..self
            },
        }
    }

    /// The counts behind this answer of a write.
    pub fn after_write(self, answer: WriteAnswer) -> Counts
        ensures exact { result ≡ counts_after_write self answer }
        ensures write_faults { self.write_faults ≤ result.write_faults }
    {
        match answer {
            WriteAnswer::Done | WriteAnswer::NoMemory => self,
            WriteAnswer::Failed => Counts {
                write_faults: self.write_faults.saturating_add(1),
                ..self
            },
        }
    }
}
