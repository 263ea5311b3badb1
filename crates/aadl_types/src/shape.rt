//! How data is built.

use aadl_names::ClassRow;
use hw_text::{BaseType, Rows, WordList};

/// What data is made of: a base type, or what the model declares.
#[derive(Clone, Copy, Debug, PartialEq, Eq)]
pub enum Part {
    Base(BaseType),
    Row(ClassRow),
}

/// One level of a data type.
#[derive(Debug, Drop)]
pub enum Shape {
    /// One of these names.
    Enum(WordList),
    /// So many of these.
    Array(Part, u32),
    /// The same as this.
    Alias(Part),
    /// The subcomponents, in order.
    Struct(Rows<Part>),
}
