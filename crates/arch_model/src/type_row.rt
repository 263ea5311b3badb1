//! The types of a model.

use crate::Form;
use hw_text::{Rows, TextBuf, WordList};
use hw_types::Layout;

/// Places in a table, in an order of their own.
pub type NumberList = Rows<u64>;

/// A type, which refers to its parts by their places among the types. The whole type is nowhere
/// kept, since the types of a chain would take the square of its length.
#[derive(Debug, Drop)]
pub struct TypeRow {
    /// The type's name in lower case, with that of an implementation behind a point; empty where
    /// there is no value.
    pub name: TextBuf,
    pub form: Form,
    pub layout: Layout,
    /// The names of an enum's values or of a struct's fields, in order.
    pub words: WordList,
    /// The places of the fields' types in order, or that of the elements' type.
    pub parts: NumberList,
    /// The place of the type whose name this one has in C.
    pub same: u32,
}

/// The types of an architecture: the base types, the one without a value, and then those that the
/// text declares, in the order of the text.
pub type TypeRowList = Rows<TypeRow>;
