//! Files of the folder where the program runs, files that go by a script, and writers.

use crate::scripted::ScriptedFiles;
use case_files::{Question, Trouble, read, send, write};
use hw_io::{DirStore, OutSink};
use hw_text::TextBuf;
use std::alloc::Global;
use std::io;
use std::io::Write;

/// The files of the folder where the program runs.
pub type Disk<'a> = DirStore<'a, HostRuntime>;

/// Whether the question is one of files or writers.
pub fn answer(
    alloc: Global,
    question: &Question,
    disk: &mut Disk<'_>,
    out: &mut TextBuf,
) -> Result<bool, Trouble> {
    match question.word.rows() {
        b"disk_read" => read(alloc, question, disk, out)?,
        b"disk_write" => write(alloc, question, disk, out)?,
        b"scripted_read" => {
            let files = ScriptedFiles::of(question.head.rows());
            read(alloc, question, &mut DirStore::new(&files), out)?;
        }
        b"scripted_write" => {
            let files = ScriptedFiles::of(question.head.rows());
            write(alloc, question, &mut DirStore::new(&files), out)?;
        }
        b"send_to_writer" => {
            let room = question.count()? as usize;
            let mut sink = OutSink::new(Narrow { room });
            send(&mut sink, question.text.rows(), out)?;
        }
        _ => return Ok(false),
    }
    Ok(true)
}

/// A writer that takes so many bytes, and from then on none.
#[derive(Drop)]
struct Narrow {
    room: usize,
}

impl Write for Narrow {
    fn write(&mut self, buf: &[u8]) -> io::Result<usize> {
        let taken = self.room.min(buf.len());
        self.room -= taken;
        Ok(taken)
    }

    fn flush(&mut self) -> io::Result<()> {
        Ok(())
    }
}
