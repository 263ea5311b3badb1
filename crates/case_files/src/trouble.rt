//! Why a question has no answer.

use hw_text::NoMemory;
use std::alloc::AllocError;

/// What is told in place of an answer.
#[derive(Clone, Copy, Debug, PartialEq, Eq)]
pub enum Trouble {
    /// The question is none.
    BadLine,
    /// What was asked answered that there is no memory, or there was none to tell its answer.
    NoMemory,
}

impl From<NoMemory> for Trouble {
    fn from(_: NoMemory) -> Self {
        Trouble::NoMemory
    }
}

impl From<AllocError> for Trouble {
    fn from(_: AllocError) -> Self {
        Trouble::NoMemory
    }
}
