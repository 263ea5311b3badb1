//! Texts that are put together line by line.

use crate::bytes::{at_space, count};
use crate::escapes::{unescape, unescaped};
use crate::trouble::Trouble;
use hw_io::MemStore;
use hw_text::{TextBuf, behind_bytes};
use std::alloc::Global;
use std::str;

/// A text, and what the next line replaces in it.
#[derive(Drop)]
pub struct Composed {
    text: TextBuf,
    old: Option<TextBuf>,
}

impl Composed {
    /// The empty text.
    pub fn new(alloc: Global) -> Self {
        Composed {
            text: TextBuf::new(alloc),
            old: None,
        }
    }

    pub fn rows(&self) -> &[u8] {
        self.text.rows()
    }

    /// Whether something is to be replaced and it is not said by what.
    pub fn is_open(&self) -> bool {
        self.old.is_some()
    }

    /// Does what a line says to the text.
    pub fn add(
        &mut self,
        alloc: Global,
        texts: &MemStore,
        sign: u8,
        rest: &[u8],
    ) -> Result<(), Trouble> {
        if sign == b'=' {
            return self.replace(alloc, rest);
        }
        if self.is_open() {
            return Err(Trouble::BadLine);
        }
        match sign {
            b'|' => {
                unescape(&mut self.text, rest)?;
                Ok(self.text.newline()?)
            }
            b'+' => unescape(&mut self.text, rest),
            b'*' => self.repeat(alloc, rest),
            b'$' => self.add_named(texts, rest),
            _ => {
                self.old = Some(unescaped(alloc, rest)?);
                Ok(())
            }
        }
    }

    /// `* COUNT TEXT`: adds the text so many times.
    fn repeat(&mut self, alloc: Global, rest: &[u8]) -> Result<(), Trouble> {
        let (digits, piece) = at_space(rest);
        let Some(times) = count(digits) else {
            return Err(Trouble::BadLine);
        };
        let piece = unescaped(alloc, piece)?;
        for _ in 0..times {
            self.text.word(piece.rows())?;
        }
        Ok(())
    }

    /// `$ NAME`: adds the text of this name.
    fn add_named(&mut self, texts: &MemStore, name: &[u8]) -> Result<(), Trouble> {
        let Ok(name) = str::from_utf8(name) else {
            return Err(Trouble::BadLine);
        };
        let Some(text) = texts.held(name) else {
            return Err(Trouble::BadLine);
        };
        Ok(self.text.word(text)?)
    }

    /// `= NEW` behind `- OLD`: the old stands once in the text, and the new then in its place.
    fn replace(&mut self, alloc: Global, rest: &[u8]) -> Result<(), Trouble> {
        let Some(old) = self.old.take() else {
            return Err(Trouble::BadLine);
        };
        let new = unescaped(alloc, rest)?;
        let Some((front, back)) = around(self.text.rows(), old.rows()) else {
            return Err(Trouble::BadLine);
        };
        if around(back, old.rows()).is_some() {
            return Err(Trouble::BadLine);
        }
        let mut text = TextBuf::new(alloc);
        text.word(front)?;
        text.word(new.rows())?;
        text.word(back)?;
        self.text = text;
        Ok(())
    }
}

/// What stands before a piece of a text, and what behind it.
fn around<'a>(text: &'a [u8], piece: &[u8]) -> Option<(&'a [u8], &'a [u8])> {
    for place in 0..text.len() {
        let (front, back) = text.split_at(place);
        if let Some(behind) = behind_bytes(back, piece) {
            return Some((front, behind));
        }
    }
    None
}
