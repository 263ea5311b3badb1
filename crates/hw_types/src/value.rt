//! Values of types.

use hw_text::Rows;

/// A value: one whole number for each scalar of its type, in order.
pub type Value = Rows<i128>;

/// Values in order, the oldest first.
pub type ValueList = Rows<Value>;
