//! The values of properties.

use crate::class::Class;
use crate::integer::Integer;
use crate::names::{Path, QualifiedName};
use crate::quoted::Quoted;
use crate::real::Real;
use hw_text::{Name, Rows};

/// What stands before a number.
#[derive(Clone, Copy, Debug, PartialEq, Eq)]
pub enum Sign {
    Plus,
    Minus,
}

/// A number, of one of the two kinds of numerals.
#[derive(Debug, Drop)]
pub enum Number {
    Integer(Integer),
    Real(Real),
}

/// A number, maybe with a sign before it and a unit behind it.
#[derive(Debug, Drop)]
pub struct Quantity {
    pub sign: Option<Sign>,
    pub number: Number,
    pub unit: Option<Name>,
}

/// A field of a record, and what it is set to.
#[cycle(value)]
#[derive(Debug, Drop)]
pub struct RecordField {
    pub name: Name,
    pub value: PropertyValue,
}

/// A value of a property.
#[cycle(value)]
#[derive(Debug, Drop)]
pub enum PropertyValue {
    Quantity(Quantity),
    /// All from the first to the second.
    Range(Quantity, Quantity),
    Text(Quoted),
    Truth(bool),
    /// A value that is called by its name.
    Name(QualifiedName),
    List(Rows<PropertyValue>),
    Record(Rows<RecordField>),
    Classifier(Class),
    Reference(Path),
}
