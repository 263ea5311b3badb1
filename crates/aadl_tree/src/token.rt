//! The tokens of model text.

use crate::annex_text::AnnexText;
use crate::integer::Integer;
use crate::mark::Mark;
use crate::quoted::Quoted;
use crate::real::Real;
use crate::word::Word;
use hw_text::Name;

/// A token. Case does not matter in names and words.
#[derive(Debug, Drop)]
pub enum Token {
    Name(Name),
    Word(Word),
    Integer(Integer),
    Real(Real),
    /// What stands between quotes.
    Text(Quoted),
    /// A text between quotes with a byte in it that no text may have, and how many bytes stand
    /// between the quote and the first such byte.
    SpoiltText(usize),
    /// What stands between `{**` and `**}`.
    Annex(AnnexText),
    Mark(Mark),
}
