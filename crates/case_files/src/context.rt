//! The texts that the questions of a case speak of.

use crate::question::Question;
use crate::trouble::Trouble;
use hw_io::MemStore;
use hw_text::{NoMemory, TextBuf};
use std::alloc::Global;

/// What a case says beside its questions.
#[derive(Drop)]
pub struct Context {
    /// Texts by their names, which hold for a whole file.
    pub texts: MemStore,
    /// What stands before and behind each text that is asked of.
    before: TextBuf,
    behind: TextBuf,
    /// Whether only the size of each answer is told.
    pub is_brief: bool,
}

impl Context {
    pub fn new(alloc: Global) -> Self {
        Context {
            texts: MemStore::new(alloc),
            before: TextBuf::new(alloc),
            behind: TextBuf::new(alloc),
            is_brief: false,
        }
    }

    /// What a case begins with.
    pub fn begin(&mut self, alloc: Global) {
        self.before = TextBuf::new(alloc);
        self.behind = TextBuf::new(alloc);
        self.is_brief = false;
    }

    /// Whether the question is one of those that every program knows, which have no answer.
    pub fn hears(&mut self, alloc: Global, question: &Question) -> Result<bool, Trouble> {
        match question.word.rows() {
            b"text" => self.texts.add(question.name()?, question.text.rows())?,
            b"before" => self.before = question.whole(alloc)?,
            b"behind" => self.behind = question.whole(alloc)?,
            b"brief" => self.is_brief = true,
            _ => return Ok(false),
        }
        Ok(true)
    }

    /// The text of this name.
    pub fn text(&self, name: &str) -> Result<&[u8], Trouble> {
        match self.texts.held(name) {
            Some(text) => Ok(text),
            None => Err(Trouble::BadLine),
        }
    }

    /// The text that is asked of.
    pub fn framed(&self, alloc: Global, question: &Question) -> Result<TextBuf, Trouble> {
        let mut text = self.before.copy()?;
        text.word(question.whole(alloc)?.rows())?;
        text.word(self.behind.rows())?;
        Ok(text)
    }
}
