//! White space, comments, and lines that begin with `#include`.

ghost use Rattle.std.specs.Prelude.{◌≡◌, ◌≤◌, [], ◌∷◌, length};
ghost use Rattle.hw_text.specs.Text.{behind_bytes};
ghost use Rattle.c_parse.specs.Blanks.{between, begins_include, next_blank, is_open, comment_start, skipped_from};

use hw_text::{begins_with, behind_bytes, front, is_white};

/// Where in blank text the next byte stands.
#[derive(Clone, Copy)]
pub enum Blank {
    /// At the start of a line.
    LineStart,
    Between,
    /// In a comment or an `#include` that goes to the end of the line.
    Line,
    /// Behind the `/` of a comment that is to be closed.
    Opening,
    Comment,
    /// Before the `/` that closes a comment.
    Closing,
}

impl Blank {
    /// Where the front of a text leads.
    fn next(self, first: u8, after: &[u8]) -> Option<Blank>
        ensures { result ≡ next_blank self first after.now }
    {
        match self {
            Blank::LineStart if begins_include(first, after) => Some(Blank::Line),
            Blank::LineStart => between(first, after),
            Blank::Between => between(first, after),
            Blank::Line if first == b'\n' => Some(Blank::LineStart),
            Blank::Line => Some(Blank::Line),
            Blank::Opening => Some(Blank::Comment),
            Blank::Comment if first == b'*' && begins_with(after, b'/') => Some(Blank::Closing),
            Blank::Comment => Some(Blank::Comment),
            Blank::Closing => Some(Blank::Between),
        }
    }

    /// Whether it is in a comment that is not closed.
    fn is_open(self) -> bool
        ensures { result ≡ is_open self }
    {
        matches!(self, Blank::Opening | Blank::Comment | Blank::Closing)
    }

    /// Where the comment began in which this blank is.
    fn comment_start<'a>(self, here: &'a [u8], start: &'a [u8]) -> &'a [u8]
        ensures { result.now ≡ comment_start self here.now start.now }
    {
        match self {
            Blank::Opening => here,
            _ => start,
        }
    }

    /// The text from its first token on, or from what begins none.
    pub fn skip(self, bytes: &[u8]) -> &[u8]
        ensures rest { result.now ≡ skipped_from self [] bytes.now }
        ensures within { length result.now ≤ length bytes.now }
    {
        let mut blank = self;
        let mut start: &[u8] = b"";
        let mut rest = bytes;
        while let Some((first, after)) = front(rest) {
            let Some(next) = blank.next(first, after) else {
                return rest;
            };
            start = next.comment_start(rest, start);
            blank = next;
            rest = after;
        }
        if blank.is_open() { start } else { rest }
    }
}

/// Whether `#include` stands here.
fn begins_include(first: u8, after: &[u8]) -> bool
    ensures { result ≡ begins_include first after.now }
{
    first == b'#' && behind_bytes(after, b"include").is_some()
}

fn between(first: u8, after: &[u8]) -> Option<Blank>
    ensures { result ≡ between first after.now }
{
    if first == b'\n' {
        Some(Blank::LineStart)
    } else if is_white(first) {
        Some(Blank::Between)
    } else if first == b'/' && begins_with(after, b'/') {
        Some(Blank::Line)
    } else if first == b'/' && begins_with(after, b'*') {
        Some(Blank::Opening)
    } else {
        None
    }
}
