//! The tokens of contracts.

use crate::description::Description;
use crate::identifier::Identifier;
use crate::mark::Mark;
use crate::word::Word;
use hw_reading::Integer;

/// A token. Case does not matter in names and words.
#[derive(Drop)]
pub enum Token {
    Name(Identifier),
    Word(Word),
    /// A word that is reserved in models and has no use in contracts.
    Reserved,
    Number(Integer),
    /// What stands between quotes.
    Text(Description),
    Mark(Mark),
}
