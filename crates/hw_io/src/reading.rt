//! A reader read to its end, up to a limit.

ghost use Rattle.std.specs.Prelude.{◌≡◌, ◌≢◌, ◌↔◌, ◌+◌, ◌<◌, IsTrue, IfErr, MatchResult, Err};
ghost use Rattle.std.specs.Io.{ReadsAtMost};
ghost use Rattle.std.specs.Io.KnownBytes.{ReadConsumes};
ghost use Rattle.std.specs.IoError.{error_kind};
ghost use Rattle.hw_io.specs.FileFault.{opening_fault};
ghost use Rattle.hw_io.specs.FileReading.{ReadsWhole};

use crate::file_fault::{FileFault, opening_fault, reading_fault};
use hw_text::ByteList;
use std::alloc::Global;
use std::io;
use std::io::{ErrorKind, Read};

/// How many bytes are read at most.
const LIMIT: usize = 134_217_728;

/// How many bytes one call asks for.
const PIECE: usize = 65_536;

/// The bytes of a file, as the attempt to open it came out.
pub fn read_opened<F: Read + Drop>(
    alloc: Global,
    opened: io::Result<F>,
) -> Result<ByteList, FileFault>
    ensures { MatchResult opened (λ file. ReadsWhole (F.remaining file) result) (λ error. result ≡ Err (opening_fault (error_kind error))) }
{
    match opened {
        Ok(mut file) => read_whole(alloc, &mut file),
        Err(error) => Err(opening_fault(error.kind())),
    }
}

/// All that a reader has left, if that is within the limit.
fn read_whole<F: Read>(alloc: Global, source: &mut F) -> Result<ByteList, FileFault>
    ensures { ReadsWhole (F.remaining source.old) result }
{
    let mut bytes = ByteList::new(alloc);
    let mut piece = [0; PIECE];
    for _ in 0..u64::MAX {
        match read_some(source, &mut piece) {
            Ok(0) => return Ok(bytes),
            Ok(n) if goes_past(bytes.rows().len(), n) => return Err(FileFault::TooLong),
            Ok(n) => bytes.extend(&piece[..n])?,
            Err(error) => return Err(reading_fault(error.kind())),
        }
    }
    Err(FileFault::Failed)
}

/// Whether so many bytes, and so many more, are more than the limit.
fn goes_past(read: usize, more: usize) -> bool
    ensures { IsTrue result ↔ (134217728 < read + more) }
{
    read > LIMIT || more > LIMIT - read
}

/// One read, tried again where a signal interrupts it.
fn read_some<F: Read>(source: &mut F, piece: &mut [u8]) -> io::Result<usize>
    ensures bound { ReadsAtMost result piece.new }
    ensures bytes { ReadConsumes (F.remaining source.old) (F.remaining source.new) result piece.new }
    ensures again { IfErr result (λ error. error_kind error ≢ ErrorKind.Interrupted) }
{
    for _ in 0..u64::MAX {
        match source.read(piece) {
            Err(error) if error.kind() == ErrorKind::Interrupted => {}
            answer => return answer,
        }
    }
    Err(io::Error::from(ErrorKind::Other))
}
