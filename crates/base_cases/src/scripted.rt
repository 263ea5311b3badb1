//! A file system of one file, whose reads and writes go by a script.

ghost use Rattle.std.specs.Prelude.{◌≤◌, IfOk};

use std::alloc::Allocator;
use std::fs::{Metadata, OpenFile, OpenOptions};
use std::io;
use std::io::{ErrorKind, Read, Seek, SeekFrom, Write};
use std::rt::Files;

/// How many calls a script has.
const CALLS: usize = 4;

/// What one call after the other does, by a letter: `b` takes or gives one byte, `i` is interrupted,
/// `e` fails, and any other takes or gives none.
type Script = [u8; CALLS];

/// Each name is that of a file, which is read and written by the script.
#[derive(Drop)]
pub struct ScriptedFiles {
    script: Script,
}

/// A file, once it is opened.
#[derive(Drop)]
pub struct ScriptedFile {
    script: Script,
    calls: usize,
}

impl ScriptedFiles {
    /// Files that go by these letters, and at later calls take or give nothing.
    pub fn of(letters: &[u8]) -> Self {
        let letter = |place: usize| letters.get(place).copied().unwrap_or(b'n');
        ScriptedFiles {
            script: [letter(0), letter(1), letter(2), letter(3)],
        }
    }
}

impl ScriptedFile {
    /// How many bytes the next call takes or gives, of so many.
    fn next(&mut self, room: usize) -> io::Result<usize>
        ensures { IfOk result (λ taken. taken ≤ room) }
    {
        let letter = self.script.get(self.calls).copied().unwrap_or(b'n');
        self.calls = self.calls.saturating_add(1);
        match letter {
            b'b' => Ok(room.min(1)),
            b'i' => Err(io::Error::from(ErrorKind::Interrupted)),
            b'e' => Err(io::Error::from(ErrorKind::Other)),
            _ => Ok(0),
        }
    }
}

impl Read for ScriptedFile {
    fn read(&mut self, buf: &mut [u8]) -> io::Result<usize> {
        let given = self.next(buf.len())?;
        if let Some(first) = buf.first_mut() {
            *first = b'b';
        }
        Ok(given)
    }
}

impl Write for ScriptedFile {
    fn write(&mut self, buf: &[u8]) -> io::Result<usize> {
        self.next(buf.len())
    }

    fn flush(&mut self) -> io::Result<()> {
        Ok(())
    }
}

impl Seek for ScriptedFile {
    fn seek(&mut self, _to: SeekFrom) -> io::Result<u64> {
        unsupported()
    }
}

impl OpenFile for ScriptedFile {
    fn metadata(&self) -> io::Result<Metadata> {
        unsupported()
    }

    fn set_len(&self, _size: u64) -> io::Result<()> {
        unsupported()
    }

    fn sync_all(&self) -> io::Result<()> {
        unsupported()
    }

    fn sync_data(&self) -> io::Result<()> {
        unsupported()
    }
}

impl Files for ScriptedFiles {
    type File = ScriptedFile;

    type Dir = ScriptedFile;

    fn open_file(&self, _how: &OpenOptions, _path: &str) -> io::Result<ScriptedFile> {
        Ok(ScriptedFile {
            script: self.script,
            calls: 0,
        })
    }

    fn open_dir(&self, _path: &str) -> io::Result<ScriptedFile> {
        unsupported()
    }

    fn metadata(&self, _path: &str) -> io::Result<Metadata> {
        unsupported()
    }

    fn symlink_metadata(&self, _path: &str) -> io::Result<Metadata> {
        unsupported()
    }

    fn copy(&self, _from: &str, _to: &str) -> io::Result<u64> {
        unsupported()
    }

    fn rename(&self, _from: &str, _to: &str) -> io::Result<()> {
        unsupported()
    }

    fn remove_file(&self, _path: &str) -> io::Result<()> {
        unsupported()
    }

    fn create_dir(&self, _path: &str) -> io::Result<()> {
        Ok(())
    }

    fn remove_dir(&self, _path: &str) -> io::Result<()> {
        unsupported()
    }

    fn remove_dir_all<B: Allocator>(&self, _alloc: B, _path: &str) -> io::Result<()> {
        unsupported()
    }
}

/// What no store asks for.
fn unsupported<T>() -> io::Result<T> {
    Err(io::Error::from(ErrorKind::Unsupported))
}
