//! When something happened.

/// A slot of a frame.
#[derive(Clone, Copy, Debug, PartialEq, Eq)]
pub struct Spot {
    pub frame: u64,
    pub slot: u32,
}
