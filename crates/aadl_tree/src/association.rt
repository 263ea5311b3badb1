//! Property associations.

ghost use Rattle.std.specs.Prelude.{◌≡◌};
ghost use Rattle.aadl_tree.specs.Values.{operator_mark};

use crate::mark::Mark;
use crate::names::{Path, QualifiedName};
use crate::value::PropertyValue;
use hw_text::Rows;

/// Whether a property is set to its values, or gets them beside those that it has.
#[derive(Clone, Copy, Debug, PartialEq, Eq)]
pub enum Operator {
    Set,
    Append,
}

impl Operator {
    pub fn mark(self) -> Mark
        ensures { result ≡ operator_mark self }
    {
        match self {
            Operator::Set => Mark::Association,
            Operator::Append => Mark::Addition,
        }
    }
}

/// What a property is set to.
#[derive(Debug, Drop)]
pub struct Association {
    pub property: QualifiedName,
    pub operator: Operator,
    /// Whether `constant` stands before the value.
    pub constant: bool,
    pub first: PropertyValue,
    pub others: Rows<PropertyValue>,
    /// The components that it applies to; with none, it applies to what it stands in.
    pub applies_to: Rows<Path>,
}
