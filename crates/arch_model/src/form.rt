//! One level of a type.

use hw_types::Scalar;

/// What a type is, but for the types of its parts.
#[derive(Clone, Copy, Debug, PartialEq, Eq)]
pub enum Form {
    /// A scalar, which has no parts.
    One(Scalar),
    /// A struct, whose parts are its fields.
    Fields,
    /// An array of so many elements of its one part.
    Times(u32),
    /// What has no value, as an event without data.
    Nothing,
}
