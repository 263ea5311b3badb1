//! The store and the sink of a case, and the questions on stores and sinks of any kind.

use crate::question::Question;
use crate::telling::{tell_line, tell_text};
use crate::trouble::Trouble;
use hw_io::{MemSink, MemStore, ReadAnswer, Sink, Store, WriteAnswer, write_all};
use hw_text::{NoMemory, TextBuf};
use std::alloc::Global;

/// The room of a sink for which none is asked.
const ROOM: usize = 65_536;

/// A store and a sink in memory.
#[derive(Drop)]
pub struct Devices {
    pub store: MemStore,
    pub sink: MemSink,
}

impl Devices {
    /// A store without files, and a new sink.
    pub fn new(alloc: Global) -> Result<Self, NoMemory> {
        Ok(Devices {
            store: MemStore::new(alloc),
            sink: MemSink::new(alloc, ROOM)?,
        })
    }

    /// Takes a new sink.
    pub fn clear(&mut self, alloc: Global) -> Result<(), NoMemory> {
        self.sink = MemSink::new(alloc, ROOM)?;
        Ok(())
    }

    /// Whether the question is one of the store or the sink.
    pub fn answer(
        &mut self,
        alloc: Global,
        question: &Question,
        out: &mut TextBuf,
    ) -> Result<bool, Trouble> {
        Ok(
            of_store(alloc, question, &mut self.store, out)?
                || of_sink(alloc, question, &mut self.sink, out)?,
        )
    }
}

fn of_store(
    alloc: Global,
    question: &Question,
    store: &mut MemStore,
    out: &mut TextBuf,
) -> Result<bool, Trouble> {
    match question.word.rows() {
        b"file" => store.add(question.name()?, question.text.rows())?,
        b"fail_read" => store.fail_read(u64::from(question.alone()?.count()?)),
        b"fail_write" => store.fail_write(u64::from(question.alone()?.count()?)),
        b"read" => read(alloc, question, store, out)?,
        b"write" => write(alloc, question, store, out)?,
        b"held" => match store.held(question.alone()?.name()?) {
            Some(bytes) => tell_text(out, bytes)?,
            None => tell_line(out, b"absent")?,
        },
        _ => return Ok(false),
    }
    Ok(true)
}

fn of_sink(
    alloc: Global,
    question: &Question,
    sink: &mut MemSink,
    out: &mut TextBuf,
) -> Result<bool, Trouble> {
    match question.word.rows() {
        b"room" => *sink = MemSink::new(alloc, question.alone()?.count()? as usize)?,
        b"fail_send" => sink.fail_write(u64::from(question.alone()?.count()?)),
        b"send" => send(sink, question.whole(alloc)?.rows(), out)?,
        b"sent" => tell_text(out, sink.bytes())?,
        _ => return Ok(false),
    }
    Ok(true)
}

/// The bytes of a name, through the trait alone.
pub fn read<S: Store>(
    alloc: Global,
    question: &Question,
    store: &mut S,
    out: &mut TextBuf,
) -> Result<(), Trouble> {
    match store.read(alloc, question.alone()?.name()?) {
        ReadAnswer::Bytes(bytes) => tell_text(out, bytes.rows())?,
        ReadAnswer::Absent => tell_line(out, b"absent")?,
        ReadAnswer::Failed => tell_line(out, b"failed")?,
        ReadAnswer::NoMemory => return Err(Trouble::NoMemory),
    }
    Ok(())
}

/// Gives a name the text below the question, through the trait alone.
pub fn write<S: Store>(
    alloc: Global,
    question: &Question,
    store: &mut S,
    out: &mut TextBuf,
) -> Result<(), Trouble> {
    match store.write(alloc, question.name()?, question.text.rows()) {
        WriteAnswer::Done => tell_line(out, b"done")?,
        WriteAnswer::Failed => tell_line(out, b"failed")?,
        WriteAnswer::NoMemory => return Err(Trouble::NoMemory),
    }
    Ok(())
}

/// Sends a whole text, through the trait alone.
pub fn send<O: Sink>(sink: &mut O, text: &[u8], out: &mut TextBuf) -> Result<(), Trouble> {
    match write_all(sink, text) {
        Ok(()) => tell_line(out, b"sent")?,
        Err(_) => tell_line(out, b"failed")?,
    }
    Ok(())
}
