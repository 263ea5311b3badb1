//! What the text of a value consists of.

use hw_text::Rows;

/// A piece of the text of a type's values.
#[derive(Clone, Copy, Debug, PartialEq, Eq)]
pub enum Piece {
    /// A byte that stands in the text of every value.
    Byte(u8),
    /// A scalar, by the place of its type among the types.
    Scalar(u64),
}

/// The pieces of which the text of a type's values consists, in order.
pub type PieceList = Rows<Piece>;
