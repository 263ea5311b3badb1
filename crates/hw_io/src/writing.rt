//! Bytes that go out whole.

ghost use Rattle.std.specs.Prelude.{◌≤◌, OnOk, OnErr};
ghost use Rattle.hw_io.specs.Meaning.{SinkFailed};
ghost use Rattle.hw_io.specs.Written.{Appends, SentPart};

use crate::{Sink, WriteFault};

/// Writes all of these bytes, in as many pieces as the sink makes of them. It takes no memory.
pub fn write_all<O: Sink>(sink: &mut O, bytes: &[u8]) -> Result<(), WriteFault>
    ensures all { OnOk result (Appends (O.means sink.old).written (O.means sink.new).written bytes.now) }
    ensures part { OnErr result (SentPart (O.means sink.old).written (O.means sink.new).written bytes.now) }
    ensures fault { OnErr result (SinkFailed (O.means sink.old) (O.means sink.new)) }
    ensures counted { (O.means sink.old).faults ≤ (O.means sink.new).faults }
{
    let mut done = 0;
    while done < bytes.len() {
        let (_, rest) = bytes.split_at(done);
        done += sink.write(rest)?;
    }
    Ok(())
}
