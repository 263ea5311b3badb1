//! The types of state variables, as they are written.

use crate::class_name::ClassName;
use crate::expression::Named;
use crate::identifier::Identifier;
use hw_text::{BaseType, Place, Rows};

/// A type of the model's own: names with `::` between them, and maybe an implementation's name
/// behind a dot.
#[derive(Drop)]
pub struct ModelType {
    pub first: ClassName,
    pub others: Rows<Identifier>,
    pub implementation: Option<Identifier>,
}

/// The type of a state variable; a base type has the place of its first token.
#[derive(Drop)]
pub enum Class {
    Base(Place, BaseType),
    Model(ModelType),
}

/// A state variable.
#[derive(Drop)]
pub struct Variable {
    pub name: Named,
    pub class: Class,
}
