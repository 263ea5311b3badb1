//! Why the tokens of a text end.

ghost use Rattle.std.specs.Prelude.{◌≡◌};
ghost use Rattle.aadl_parse.specs.Stops.{stop_at};

use crate::byte::is_bad_byte;
use hw_text::front;

/// What stands where the tokens of a text end.
#[derive(Clone, Copy, Debug, PartialEq, Eq)]
pub enum Stop {
    /// Nothing: the text ends there too.
    End,
    /// A byte that may not stand outside comments and annex texts.
    BadByte,
    /// A byte with which no token begins there.
    BadToken,
}

impl Stop {
    /// Why no token begins at the front of a text that has none there.
    pub fn at(bytes: &[u8]) -> Stop
        ensures { result ≡ stop_at bytes.now }
    {
        match front(bytes) {
            None => Stop::End,
            Some((first, _)) if is_bad_byte(first) => Stop::BadByte,
            Some(_) => Stop::BadToken,
        }
    }
}
