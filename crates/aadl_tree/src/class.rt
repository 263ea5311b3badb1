//! Classifiers: the types of ports and subcomponents, as they are written.

use crate::class_name::ClassName;
use hw_text::{BaseType, Name, Place, Rows};

/// A type of the model's own: names with `::` between them, and maybe an implementation's name
/// behind a dot.
#[derive(Debug, Drop)]
pub struct ModelClass {
    pub first: ClassName,
    /// Where the first name stands.
    pub place: Place,
    pub others: Rows<Name>,
    pub implementation: Option<Name>,
}

/// A classifier; a base type has the place of its first token.
#[derive(Debug, Drop)]
pub enum Class {
    Base(Place, BaseType),
    Model(ModelClass),
}
