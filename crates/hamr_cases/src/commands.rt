//! Whole commands, over the store and the sink of a case.

use case_files::{Answerer, Context, Devices, Question, Trouble, tell_number, tell_text};
use hamr_cli::hamr;
use hw_io::MemFile;
use hw_text::{NoMemory, TextBuf};
use std::alloc::Global;

/// Who answers, and the store and the sink of a case.
#[derive(Drop)]
pub struct Commands {
    devices: Devices,
}

impl Commands {
    pub fn new(alloc: Global) -> Result<Self, NoMemory> {
        Ok(Commands {
            devices: Devices::new(alloc)?,
        })
    }
}

impl Answerer for Commands {
    fn begin(&mut self, alloc: Global) -> Result<(), NoMemory> {
        self.devices = Devices::new(alloc)?;
        Ok(())
    }

    fn answer(
        &mut self,
        alloc: Global,
        _context: &Context,
        question: &Question,
        out: &mut TextBuf,
    ) -> Result<bool, Trouble> {
        if question.word.rows() != b"run".as_slice() {
            return self.devices.answer(alloc, question, out);
        }
        run(alloc, question, &mut self.devices, out)?;
        Ok(true)
    }
}

/// `run WORDS`: the status of the command, the names that the store holds then, and what went out.
/// The sink is a new one afterwards.
fn run(
    alloc: Global,
    question: &Question,
    devices: &mut Devices,
    out: &mut TextBuf,
) -> Result<(), Trouble> {
    let words = question.words(alloc)?;
    let status = hamr(alloc, &words, &mut devices.store, &mut devices.sink);
    tell_number(out, b"status", i128::from(status.number()))?;
    tell_names(out, devices.store.files())?;
    tell_text(out, devices.sink.bytes())?;
    Ok(devices.clear(alloc)?)
}

/// Appends a line of the names of these files, the oldest first, each where its newest file is;
/// nothing where there is none.
fn tell_names(out: &mut TextBuf, files: &[MemFile]) -> Result<(), NoMemory> {
    if files.is_empty() {
        return Ok(());
    }
    out.word(b"held")?;
    let mut rest = files;
    while let Some((file, newer)) = rest.split_last() {
        if !newer
            .iter()
            .any(|other| other.name.rows() == file.name.rows())
        {
            out.word(b" ")?;
            out.word(file.name.rows())?;
        }
        rest = newer;
    }
    out.newline()
}
