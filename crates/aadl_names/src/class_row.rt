//! What classifiers refer to.

/// A base type, or the number of a type or an implementation in its table.
#[derive(Clone, Copy, Debug, PartialEq, Eq)]
pub enum ClassRow {
    Base,
    Type(usize),
    Implementation(usize),
}
