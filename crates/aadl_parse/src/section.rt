//! Reading sections: a word, and members behind it, or `none`.

ghost use Rattle.std.specs.Prelude.{◌≡◌, true, [], ◌∷◌, ◌++◌, codes};
ghost use Rattle.hw_text.specs.Language.{Maybe};
ghost use Rattle.hw_text.specs.Reading.{Reads};
ghost use Rattle.aadl_tree.specs.Words.{word_spelling};
ghost use Rattle.aadl_parse.specs.Builds.{or_none};
ghost use Rattle.aadl_parse.specs.Grammar.{Section};
ghost use Rattle.aadl_parse.specs.Shapes.{Without, is_disjoint};

use crate::part::{Behind, Part};
use crate::repeat::at_least_one;
use crate::symbols::{keyword, sign, stands_word};
use aadl_tree::{Mark, Token, Word};
use hw_text::{Cursor, Placed, ReadFault, Rows};
use std::alloc::Global;

/// A part that may stand in a section, where `none` is no member.
pub trait Member: Part {
    ghost listed: { is_disjoint Self.Part.starts (codes "none" ∷ []) ≡ true };
}

/// Reads the section that begins with this word, where it is ahead.
pub fn section<M: Member + Behind<M>>(
    alloc: Global,
    tokens: &mut Cursor<'_, Placed<Token>>,
    word: Word,
) -> Result<Option<Rows<M::Value>>, ReadFault>
    ensures { Reads (Maybe (Section (word_spelling word) M.Part.spells)) (Without (word_spelling word ∷ (M.Part.starts ++ M.Part.goes_on))) tokens.old tokens.new result }
{
    if !stands_word(tokens, word) {
        return Ok(None);
    }
    keyword(tokens, word)?;
    if stands_word(tokens, Word::None) {
        keyword(tokens, Word::None)?;
        sign(tokens, Mark::Semicolon)?;
        return Ok(Some(Rows::new(alloc)));
    }
    let members = at_least_one::<M>(alloc, tokens)?;
    Ok(Some(members))
}

/// The members of a section; there are none where it is not there.
pub fn or_none<X: Drop>(alloc: Global, section: Option<Rows<X>>) -> Rows<X>
    ensures { result ≡ or_none section }
{
    match section {
        Some(members) => members,
        None => Rows::new(alloc),
    }
}
