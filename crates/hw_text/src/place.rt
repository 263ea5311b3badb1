//! Places in a text.

ghost use Rattle.std.specs.Prelude.{◌≡◌, ◌↔◌, ◌≤◌, length, IsTrue};
ghost use Rattle.hw_text.specs.Places.{IsBefore, counted, next_place, place_behind, place_of_rest};

/// Where a byte stands: lines count by LF and columns by bytes, both from 1. A count that would
/// pass the largest `u32` stays there. 0:0 stands for no place.
#[derive(Clone, Copy, Debug, PartialEq, Eq)]
pub struct Place {
    pub line: u32,
    pub column: u32,
}

impl Place {
    /// The first byte of a text.
    pub const START: Place = Place { line: 1, column: 1 };

    /// What a refusal without a place holds.
    pub const NONE: Place = Place { line: 0, column: 0 };

    /// Whether this place comes before the other: places are ordered by line, then by column.
    pub fn is_before(self, other: Place) -> bool
        ensures { IsTrue result ↔ IsBefore self other }
    {
        self.line < other.line || (self.line == other.line && self.column < other.column)
    }
}

/// The place of the rest of a text that stands at a place.
pub fn place_of_rest(at: Place, text: &[u8], rest: &[u8]) -> Place
    requires { length rest.now ≤ length text.now }
    ensures { result ≡ place_of_rest at text.now rest.now }
{
    let (passed, _) = text.split_at(text.len() - rest.len());
    place_behind(at, passed)
}

/// The place behind these bytes.
pub fn place_behind(at: Place, bytes: &[u8]) -> Place
    ensures { result ≡ place_behind at bytes.now }
{
    let mut place = at;
    for &byte in bytes {
        place = next_place(place, byte);
    }
    place
}

fn next_place(at: Place, byte: u8) -> Place
    ensures { result ≡ next_place at byte }
{
    if byte == b'\n' {
        Place {
            line: counted(at.line),
            column: 1,
        }
    } else {
        Place {
            line: at.line,
            column: counted(at.column),
        }
    }
}

fn counted(n: u32) -> u32
    ensures { result ≡ counted n }
{
    if n < u32::MAX { n + 1 } else { n }
}
