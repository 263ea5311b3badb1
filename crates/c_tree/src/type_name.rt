//! The types that declarations name.

use crate::integer_type::IntegerType;
use crate::named::Named;
use hw_text::Place;

/// A type, and where its name stands.
#[derive(Debug, Drop)]
pub enum TypeName {
    Integer(Place, IntegerType),
    Truth(Place),
    /// A type that a typedef makes.
    Defined(Named),
}
