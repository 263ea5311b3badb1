//! What may be wrong with a token with which the grammar goes on.

/// How many brackets may be open at once.
pub const DEEPEST: usize = 64;

/// How many tokens an expression may have.
pub const LONGEST: usize = 500;

/// What is wrong with a token.
#[derive(Clone, Copy, Debug, PartialEq, Eq)]
pub enum Flaw {
    /// It is a bracket inside as many others as there may be.
    TooDeep,
    /// An expression goes on with it that has as many tokens as it may have.
    TooLong,
    /// With it ends the second literal of a range, which is not above the first.
    EmptyRange,
}

/// A token with which something is wrong.
#[derive(Clone, Copy, Debug, PartialEq, Eq)]
pub struct Flawed {
    pub index: usize,
    pub flaw: Flaw,
}
