//! A store of bytes under names, as files are.

ghost use Rattle.std.specs.Prelude.{◌≡◌, ◌≢◌, List, ℕ, true, Some, None};
ghost use Rattle.hw_io.specs.Answer.{OnBytes, OnAbsent, OnReadFailed, OnDone, OnWriteFailed};
ghost use Rattle.hw_io.specs.Count.{NeverFalls};
ghost use Rattle.hw_io.specs.Meaning.{StoreMeaning, ReadFailed, WriteFailed, FoundNothing};

use crate::{ReadAnswer, WriteAnswer};
use std::alloc::Global;

/// Bytes under names. Every answer but want of memory is tied to what the store holds, or to a count
/// of its own at the name of the call; an implementation may keep one count for all names.
pub trait Store {
    /// What the store tells, holds and has counted.
    ghost means: { Self → StoreMeaning };

    /// The bytes of a name.
    fn read(&mut self, alloc: Global, name: &str) -> ReadAnswer
        ensures tells { (means self.new).tells ≡ (means self.old).tells }
        ensures kept { (n : List ℕ) → (means self.new).held n ≡ (means self.old).held n }
        ensures bytes { OnBytes result (λ bytes. (means self.old).tells ≡ true → (means self.old).held name.now ≡ Some bytes) }
        ensures absent { OnAbsent result ((means self.old).tells ≡ true → (means self.old).held name.now ≡ None) }
        ensures absence { OnAbsent result (FoundNothing (means self.old) (means self.new) name.now) }
        ensures failed { OnReadFailed result (ReadFailed (means self.old) (means self.new) name.now) }
        ensures read_faults { NeverFalls (means self.old).read_faults (means self.new).read_faults }
        ensures write_faults { NeverFalls (means self.old).write_faults (means self.new).write_faults }
        ensures absences { NeverFalls (means self.old).absences (means self.new).absences };

    /// Puts these bytes in the place of those that the name has. After an answer other than `Done`
    /// that name may have any bytes, or none.
    fn write(&mut self, alloc: Global, name: &str, bytes: &[u8]) -> WriteAnswer
        ensures tells { (means self.new).tells ≡ (means self.old).tells }
        ensures done { OnDone result ((means self.old).tells ≡ true → (means self.new).held name.now ≡ Some bytes.now) }
        ensures others { (n : List ℕ) → n ≢ name.now → (means self.new).held n ≡ (means self.old).held n }
        ensures failed { OnWriteFailed result (WriteFailed (means self.old) (means self.new) name.now) }
        ensures read_faults { NeverFalls (means self.old).read_faults (means self.new).read_faults }
        ensures write_faults { NeverFalls (means self.old).write_faults (means self.new).write_faults }
        ensures absences { NeverFalls (means self.old).absences (means self.new).absences };
}
