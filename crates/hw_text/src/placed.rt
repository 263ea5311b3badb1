//! Tokens, of whatever language, and where they stand.

use crate::{Place, Rows};

/// A token, and where it begins.
#[derive(Debug, Drop)]
pub struct Placed<T> {
    pub token: T,
    pub place: Place,
}

/// The tokens at the front of a text, and what stands behind them and begins no token.
#[derive(Debug, Drop)]
pub struct Lexed<'a, T> {
    pub tokens: Rows<Placed<T>>,
    /// Where the tokens end.
    pub end: Place,
    pub rest: &'a [u8],
}
