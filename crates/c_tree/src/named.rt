//! Names and literals, and where they stand.

use crate::identifier::Identifier;
use crate::numeral::Numeral;
use hw_text::Place;

/// A name where it stands.
#[derive(Debug, Drop)]
pub struct Named {
    pub name: Identifier,
    pub place: Place,
}

/// A literal where it stands, as it is spelled.
#[derive(Debug, Drop)]
pub struct Literal {
    pub numeral: Numeral,
    pub place: Place,
}

/// A literal, maybe behind a minus.
#[derive(Debug, Drop)]
pub struct SignedLiteral {
    /// Where the first token stands.
    pub start: Place,
    pub negative: bool,
    pub literal: Literal,
}
