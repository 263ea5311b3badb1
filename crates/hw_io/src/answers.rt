//! What a store answers.

use hw_text::ByteList;

/// The answer of a read.
#[derive(Debug, Drop)]
pub enum ReadAnswer {
    /// These are the bytes of the name.
    Bytes(ByteList),
    /// Nothing has the name.
    Absent,
    /// The bytes could not be read.
    Failed,
    /// There was no memory for the bytes.
    NoMemory,
}

/// The answer of a write.
#[derive(Clone, Copy, Debug, PartialEq, Eq)]
pub enum WriteAnswer {
    /// The name has these bytes now.
    Done,
    /// The bytes could not be written.
    Failed,
    /// There was no memory for what the store had to keep.
    NoMemory,
}
