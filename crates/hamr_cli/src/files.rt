//! Reading the files that the words name.

ghost use Rattle.std.specs.Prelude.{◌≡◌, List, ℕ, Some, true, IfOk};
ghost use Rattle.hamr_cli.specs.Inner.{IsOnlyRead, OnStopped, IsUnread};

use crate::Report;
use crate::cause::{absent_file, unreadable_file};
use hw_io::{ReadAnswer, Store};
use hw_text::{ByteList, NoMemory};
use std::alloc::Global;

/// What ends a command before its own text.
#[derive(Debug, Drop)]
pub enum Stop {
    /// This report stands in its place.
    Instead(Report),
    NoMemory,
}

impl From<NoMemory> for Stop {
    ghost use Rattle.std.specs.Prelude.{◌≡◌};
    ghost use Rattle.hamr_cli.specs.declared.files.Stop.TheVariants.{NoMemory as stop_no_memory};

    ghost from_gives = { λ _ stop. stop ≡ stop_no_memory };

    fn from(_: NoMemory) -> Self {
        Stop::NoMemory
    }
}

/// The bytes of a file, or the report where it can't be read.
pub fn read_file<S: Store>(alloc: Global, store: &mut S, file: &str) -> Result<ByteList, Stop>
    ensures bytes { IfOk result (λ bytes. (S.means store.old).tells ≡ true → (S.means store.old).held file.now ≡ Some bytes) }
    ensures stopped { OnStopped result (λ report. IsUnread (S.means store.old) (S.means store.new) file.now report) }
    ensures kept { IsOnlyRead (S.means store.old) (S.means store.new) }
{
    match store.read(alloc, file) {
        ReadAnswer::Bytes(bytes) => Ok(bytes),
        ReadAnswer::Absent => Err(Stop::Instead(absent_file(alloc, file)?)),
        ReadAnswer::Failed => Err(Stop::Instead(unreadable_file(alloc, file)?)),
        ReadAnswer::NoMemory => Err(Stop::NoMemory),
    }
}
