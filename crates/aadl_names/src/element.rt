//! What a property may stand at.

/// What a model declares, by its number in its table, and a part of it by its number among the
/// parts of its kind there (SAE AS5506, named elements).
#[derive(Clone, Copy, Debug, PartialEq, Eq)]
pub enum Element {
    Type(usize),
    Implementation(usize),
    /// A feature of the type of the first number.
    Feature(usize, usize),
    /// A subcomponent of the implementation of the first number.
    Subcomponent(usize, usize),
    /// A connection of the implementation of the first number.
    Connection(usize, usize),
}
