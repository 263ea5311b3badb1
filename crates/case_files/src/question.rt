//! Questions.

use crate::bytes::{count, pieces};
use crate::composed::Composed;
use crate::escapes::unescaped;
use crate::trouble::Trouble;
use hw_text::{ByteList, NoMemory, TextBuf, WordList};
use std::alloc::Global;
use std::str;

/// A question: its word, what stands behind the word, and the text of the lines below it.
#[derive(Drop)]
pub struct Question {
    /// The number of its line.
    pub number: u64,
    pub word: ByteList,
    /// As it is written.
    pub head: ByteList,
    pub text: Composed,
    /// Whether a line below it was bad, and told so.
    pub is_spoilt: bool,
}

impl Question {
    pub fn new(alloc: Global, number: u64, word: &[u8], head: &[u8]) -> Result<Self, NoMemory> {
        Ok(Question {
            number,
            word: ByteList::of(alloc, word)?,
            head: ByteList::of(alloc, head)?,
            text: Composed::new(alloc),
            is_spoilt: false,
        })
    }

    /// What stands behind the word, and the text below it.
    pub fn whole(&self, alloc: Global) -> Result<TextBuf, Trouble> {
        let mut whole = unescaped(alloc, self.head.rows())?;
        whole.word(self.text.rows())?;
        Ok(whole)
    }

    /// The question itself, where no text stands below it.
    pub fn alone(&self) -> Result<&Question, Trouble> {
        if self.text.rows().is_empty() {
            Ok(self)
        } else {
            Err(Trouble::BadLine)
        }
    }

    /// The words behind the question's, between single spaces.
    pub fn words(&self, alloc: Global) -> Result<WordList, Trouble> {
        let mut words = WordList::new(alloc);
        for word in pieces(alloc, self.alone()?.head.rows(), b' ')?.rows() {
            words.push(unescaped(alloc, word.rows())?.rows())?;
        }
        Ok(words)
    }

    /// The name behind the word.
    pub fn name(&self) -> Result<&str, Trouble> {
        match str::from_utf8(self.head.rows()) {
            Ok(name) => Ok(name),
            Err(_) => Err(Trouble::BadLine),
        }
    }

    /// The number behind the word.
    pub fn count(&self) -> Result<u32, Trouble> {
        match count(self.head.rows()) {
            Some(count) => Ok(count),
            None => Err(Trouble::BadLine),
        }
    }
}
