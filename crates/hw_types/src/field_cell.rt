//! Where a scalar lies.

use crate::Scalar;
use hw_text::Rows;

/// A scalar of a value, and where it begins in the value's bytes.
#[derive(Clone, Copy, Debug, PartialEq, Eq)]
pub struct FieldCell {
    pub offset: u32,
    pub scalar: Scalar,
}

/// Scalars in the order of their offsets.
pub type FieldCellList = Rows<FieldCell>;
