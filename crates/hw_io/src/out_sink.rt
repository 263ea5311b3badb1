//! A writer of the runtime as a sink, as standard output is.

ghost use Rattle.std.specs.Prelude.{◌≡◌, ◌≢◌, ◌≤◌, [], length, take, IfOk, IfErr, OnErr, MatchResult};
ghost use Rattle.std.specs.Io.{WritesAtMost};
ghost use Rattle.std.specs.Io.KnownBytes.{WriteAppends};
ghost use Rattle.std.specs.IoError.{error_kind};
ghost use Rattle.hw_io.specs.Count.{HasRisen, one_more};
ghost use Rattle.hw_io.specs.Written.{Appends};

use crate::{Sink, SinkFault};
use std::io;
use std::io::{ErrorKind, Write};
use std::marker::Model;

/// A writer, whose bytes are told where the writer tells them. It has to be one that keeps no bytes
/// back, as `io::writer` of the runtime: nothing here flushes it.
#[derive(Drop)]
pub struct OutSink<W: Write + Drop> {
    out: W,
    faults: u64,
}

impl<W: Write + Drop> Model for OutSink<W> {
    ghost use Rattle.hw_io.specs.Meaning.{SinkMeaning};

    ghost Value = { SinkMeaning };

    ghost view = { λ s. record {
      written = W.contents s.out;
      faults = s.faults;
    } };
}

impl<W: Write + Drop> OutSink<W> {
    /// A sink over this writer, with no fault counted.
    pub fn new(out: W) -> Self
        ensures { result ≡ record { written = W.contents out; faults = 0 } }
    {
        OutSink { out, faults: 0 }
    }
}

impl<W: Write + Drop> Sink for OutSink<W> {
    ghost means = { λ s. s };

    fn write(&mut self, bytes: &[u8]) -> Result<usize, SinkFault>
        ensures within { IfOk result (λ n. n ≤ length bytes.now) }
        ensures written { IfOk result (λ n. Appends self.old.written self.new.written (take n bytes.now)) }
        ensures some { IfOk result (λ n. n ≡ 0 → bytes.now ≡ []) }
        ensures nothing { OnErr result (Appends self.old.written self.new.written []) }
        ensures fault { OnErr result (HasRisen self.old.faults self.new.faults) }
        ensures counted { self.old.faults ≤ self.new.faults }
        ensures faults { MatchResult result (λ _. self.new.faults ≡ self.old.faults) (λ _. self.new.faults ≡ one_more self.old.faults) }
    {
        match write_some(&mut self.out, bytes) {
            Ok(n) if n > 0 || bytes.is_empty() => Ok(n),
            _ => {
                self.faults = self.faults.saturating_add(1);
                Err(SinkFault)
            }
        }
    }
}

/// One write, tried again where a signal interrupts it.
fn write_some<W: Write>(out: &mut W, bytes: &[u8]) -> io::Result<usize>
    ensures bound { WritesAtMost result bytes.now }
    ensures bytes { WriteAppends (W.contents out.old) (W.contents out.new) result bytes.now }
    ensures again { IfErr result (λ error. error_kind error ≢ ErrorKind.Interrupted) }
{
    for _ in 0..u64::MAX {
        match out.write(bytes) {
            Err(error) if error.kind() == ErrorKind::Interrupted => {}
            answer => return answer,
        }
    }
    Err(io::Error::from(ErrorKind::Other))
}
