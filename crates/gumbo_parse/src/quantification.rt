//! The headings of quantifiers.

use crate::expression::{Bound, Named};
use crate::operator::Quantifier;
use hw_text::Place;

/// What stands before the body of a quantifier, and where its word stands.
#[derive(Drop)]
pub struct Quantification {
    pub place: Place,
    pub quantifier: Quantifier,
    pub variable: Named,
    pub from: Bound,
    pub below: Bound,
}
