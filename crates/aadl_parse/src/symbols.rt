//! The words and marks of the grammar, and how they are read.

ghost use Rattle.std.specs.Prelude.{◌≡◌, [], ◌∷◌};
ghost use Rattle.hw_text.specs.Reading.{Reads, begins};
ghost use Rattle.aadl_tree.specs.Marks.{mark_spelling};
ghost use Rattle.aadl_tree.specs.Words.{word_spelling};
ghost use Rattle.aadl_parse.specs.Shapes.{one_of, Without};
ghost use Rattle.aadl_parse.specs.SimpleValue.{Symbol};

use crate::shape::shape;
use aadl_tree::{Mark, Token, Word};
use hw_text::{Cursor, Placed, ReadFault};

/// Whether this word is ahead.
pub fn stands_word(tokens: &Cursor<'_, Placed<Token>>, word: Word) -> bool
    ensures { result ≡ begins (one_of (word_spelling word ∷ [])) tokens.now }
{
    match tokens.peek() {
        Some(placed) => shape(&placed.token) == word.spelling(),
        None => false,
    }
}

/// Whether this mark is ahead.
pub fn stands_mark(tokens: &Cursor<'_, Placed<Token>>, mark: Mark) -> bool
    ensures { result ≡ begins (one_of (mark_spelling mark ∷ [])) tokens.now }
{
    match tokens.peek() {
        Some(placed) => shape(&placed.token) == mark.spelling(),
        None => false,
    }
}

/// Reads this word.
pub fn keyword(tokens: &mut Cursor<'_, Placed<Token>>, word: Word) -> Result<(), ReadFault>
    ensures { Reads (Symbol (word_spelling word)) (Without []) tokens.old tokens.new result }
{
    if !stands_word(tokens, word) {
        return Err(ReadFault::Syntax);
    }
    tokens.pass();
    Ok(())
}

/// Reads this mark.
pub fn sign(tokens: &mut Cursor<'_, Placed<Token>>, mark: Mark) -> Result<(), ReadFault>
    ensures { Reads (Symbol (mark_spelling mark)) (Without []) tokens.old tokens.new result }
{
    if !stands_mark(tokens, mark) {
        return Err(ReadFault::Syntax);
    }
    tokens.pass();
    Ok(())
}
