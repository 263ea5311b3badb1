//! Files of the file system as a store.

ghost use Rattle.std.specs.Prelude.{◌≡◌, ◌≤◌, false, None, OnErr};
ghost use Rattle.std.specs.Io.KnownBytes.{Appends};
ghost use Rattle.hw_io.specs.Answer.{OnDone};
ghost use Rattle.hw_io.specs.Counts.{no_counts, counts_after_read, counts_after_write};
ghost use Rattle.hw_io.specs.declared.answers.WriteAnswer.TheVariants.{Failed as write_failed};

use crate::counts::Counts;
use crate::file_fault::answer_of;
use crate::reading::read_opened;
use crate::{ReadAnswer, Store, WriteAnswer};
use std::alloc::Global;
use std::io::Write;
use std::marker::Model;
use std::path::Path;
use std::rt::Files;
use std::{fs, io};

/// Files under the current folder. Names are opened as given, relative ones from that folder. What
/// they hold is not told, and each kind of count is one number for all names.
#[derive(Drop)]
pub struct DirStore<'a, R: Files> {
    files: &'a R,
    counts: Counts,
}

impl<'a, R: Files> Model for DirStore<'a, R> {
    ghost use Rattle.hw_io.specs.declared.counts.Counts.{Counts};

    ghost Value = { Counts };

    ghost view = { λ s. s.counts };
}

impl<'a, R: Files> DirStore<'a, R> {
    /// The files of a runtime, with no fault counted.
    pub fn new(files: &'a R) -> Self
        ensures { result ≡ no_counts }
    {
        DirStore {
            files,
            counts: Counts {
                read_faults: 0,
                write_faults: 0,
                absences: 0,
            },
        }
    }
}

impl<'a, R: Files> Store for DirStore<'a, R> {
    ghost means = { λ s. record {
      tells = false;
      held = λ _. None;
      read_faults = λ _. s.read_faults;
      write_faults = λ _. s.write_faults;
      absences = λ _. s.absences;
    } };

    fn read(&mut self, alloc: Global, name: &str) -> ReadAnswer
        ensures counts { self.new ≡ counts_after_read self.old result }
        ensures read_faults { self.old.read_faults ≤ self.new.read_faults }
        ensures absences { self.old.absences ≤ self.new.absences }
    {
        let answer = answer_of(read_opened(alloc, fs::open(self.files, name)));
        self.counts = self.counts.after_read(&answer);
        answer
    }

    fn write(&mut self, _alloc: Global, name: &str, bytes: &[u8]) -> WriteAnswer
        ensures counts { self.new ≡ counts_after_write self.old result }
        ensures write_faults { self.old.write_faults ≤ self.new.write_faults }
    {
        let answer = match make_folders(self.files, name) {
            Ok(()) => write_created(fs::create(self.files, name), bytes),
            Err(_) => WriteAnswer::Failed,
        };
        self.counts = self.counts.after_write(answer);
        answer
    }
}

/// Makes the missing folders of a name.
fn make_folders<R: Files>(files: &R, name: &str) -> io::Result<()> {
    match Path::new(name).parent() {
        Some(folder) => fs::create_dir_all(files, folder),
        None => Ok(()),
    }
}

/// Writes a file, as the attempt to make it came out.
fn write_created<W: Write + Drop>(created: io::Result<W>, bytes: &[u8]) -> WriteAnswer
    ensures { OnErr created (result ≡ write_failed) }
{
    match created {
        Ok(mut file) => write_whole(&mut file, bytes),
        Err(_) => WriteAnswer::Failed,
    }
}

/// Writes all of these bytes. An interrupted write is tried again.
fn write_whole<W: Write>(out: &mut W, bytes: &[u8]) -> WriteAnswer
    ensures { OnDone result (Appends (W.contents out.old) (W.contents out.new) bytes.now) }
{
    match out.write_all(bytes) {
        Ok(()) => WriteAnswer::Done,
        Err(_) => WriteAnswer::Failed,
    }
}
