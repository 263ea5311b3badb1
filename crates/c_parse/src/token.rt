//! The tokens of C.

use crate::keyword::Keyword;
use crate::mark::Mark;
use c_tree::{Identifier, Numeral};
use hw_text::ByteList;

/// A token.
#[derive(Debug, Drop)]
pub enum Token {
    Name(Identifier),
    Keyword(Keyword),
    /// A word of C that the grammar does not use.
    Reserved(ByteList),
    Literal(Numeral),
    Mark(Mark),
}
