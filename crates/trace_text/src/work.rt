//! What is left of the pieces of a type.

use hw_text::Rows;

/// Pieces that are still to be listed.
#[derive(Clone, Copy, Debug, PartialEq, Eq)]
pub enum Work {
    /// Those of the type at a place.
    Whole(u64),
    /// Those of the type at a place behind its first members, which are so many.
    Behind(u64, u64),
}

/// What is to be listed, the last first.
pub type WorkList = Rows<Work>;
