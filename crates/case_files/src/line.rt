//! The lines of a case file.

use crate::bytes::at_space;
use hw_text::front;

/// A line, by its first byte.
#[derive(Clone, Copy, Debug)]
pub enum Line<'a> {
    Blank,
    /// What the case shows that begins here.
    Shows,
    /// What is done to the text of the question above, and with what.
    Piece(u8, &'a [u8]),
    /// A question: its word, and what stands behind the word.
    Asks(&'a [u8], &'a [u8]),
    /// None of these.
    Bad,
}

impl<'a> Line<'a> {
    pub fn of(line: &'a [u8]) -> Self {
        let Some((first, _)) = front(line) else {
            return Line::Blank;
        };
        let (word, rest) = at_space(line);
        match first {
            b'#' => Line::Shows,
            b'a'..=b'z' => Line::Asks(word, rest),
            b'|' | b'+' | b'*' | b'$' | b'-' | b'=' if word.len() == 1 => Line::Piece(first, rest),
            _ => Line::Bad,
        }
    }
}
