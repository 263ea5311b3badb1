//! Why a file gave no bytes.

ghost use Rattle.std.specs.Prelude.{◌≡◌};
ghost use Rattle.hw_io.specs.FileFault.{opening_fault, reading_fault, answer_of};

use crate::ReadAnswer;
use hw_text::{ByteList, NoMemory};
use std::io::ErrorKind;

/// Why a file gave no bytes.
#[derive(Clone, Copy, Debug, PartialEq, Eq)]
pub enum FileFault {
    /// It is not there.
    Absent,
    /// It could not be opened, or a read of it failed.
    Failed,
    /// It goes past the limit.
    TooLong,
    /// There was no memory for its bytes.
    NoMemory,
}

impl From<NoMemory> for FileFault {
    ghost use Rattle.std.specs.Prelude.{◌≡◌};
    ghost use Rattle.hw_io.specs.declared.file_fault.FileFault.TheVariants.{NoMemory as file_no_memory};

    ghost from_gives = { λ _ fault. fault ≡ file_no_memory };

    fn from(_: NoMemory) -> Self {
        FileFault::NoMemory
    }
}

/// What an error of this kind is where a file is opened.
pub fn opening_fault(kind: ErrorKind) -> FileFault
    ensures { result ≡ opening_fault kind }
{
    match kind {
        ErrorKind::NotFound => FileFault::Absent,
        ErrorKind::OutOfMemory => FileFault::NoMemory,
        _ => FileFault::Failed,
    }
}

/// What an error of this kind is where an open file is read.
pub fn reading_fault(kind: ErrorKind) -> FileFault
    ensures { result ≡ reading_fault kind }
{
    match kind {
        ErrorKind::OutOfMemory => FileFault::NoMemory,
        _ => FileFault::Failed,
    }
}

/// What a store answers for it.
pub fn answer_of(read: Result<ByteList, FileFault>) -> ReadAnswer
    ensures { result ≡ answer_of read }
{
    match read {
        Ok(bytes) => ReadAnswer::Bytes(bytes),
        Err(FileFault::Absent) => ReadAnswer::Absent,
        Err(FileFault::Failed) | Err(FileFault::TooLong) => ReadAnswer::Failed,
        Err(FileFault::NoMemory) => ReadAnswer::NoMemory,
    }
}
