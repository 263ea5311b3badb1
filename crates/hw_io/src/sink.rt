//! A sink for bytes, as standard output is.

ghost use Rattle.std.specs.Prelude.{◌≡◌, ◌≤◌, [], length, take, IfOk, OnErr};
ghost use Rattle.hw_io.specs.Meaning.{SinkMeaning, SinkFailed};
ghost use Rattle.hw_io.specs.Written.{Appends};

use crate::SinkFault;

/// What is printed goes here. Each fault is counted, and appends nothing.
pub trait Sink {
    /// What was written and how often writes have failed.
    ghost means: { Self → SinkMeaning };

    /// Appends the first bytes of a piece, and answers how many. A sink that takes none of a piece
    /// that has some fails.
    fn write(&mut self, bytes: &[u8]) -> Result<usize, SinkFault>
        ensures within { IfOk result (λ n. n ≤ length bytes.now) }
        ensures written { IfOk result (λ n. Appends (means self.old).written (means self.new).written (take n bytes.now)) }
        ensures some { IfOk result (λ n. n ≡ 0 → bytes.now ≡ []) }
        ensures nothing { OnErr result (Appends (means self.old).written (means self.new).written []) }
        ensures fault { OnErr result (SinkFailed (means self.old) (means self.new)) }
        ensures counted { (means self.old).faults ≤ (means self.new).faults };
}
