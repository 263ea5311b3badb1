//! Reading annexes.

ghost use Rattle.std.specs.Prelude.{[], ◌∷◌, codes, refl};
ghost use Rattle.aadl_parse.specs.Grammar.{SpellsAnnex};
ghost use Rattle.aadl_parse.specs.Parts.{an_annex};

use crate::leaf::read_one;
use crate::name_token::NameAt;
use crate::part::{Behind, Closed, Part};
use crate::symbols::{keyword, sign, stands_word};
use crate::word_token::AnnexBody;
use aadl_tree::{Annex, Mark, Token, Word};
use hw_text::{Cursor, Placed, ReadFault};
use std::alloc::Global;

/// "annex" NAME ( ANNEX | "none" ) ";"
pub struct Annexes;

impl Part for Annexes {
    type Value = Annex;

    ghost spells = { SpellsAnnex };

    ghost starts = { codes "annex" ∷ [] };

    ghost goes_on = { [] };

    ghost sample = { an_annex.sample };

    ghost begun = { an_annex.begins };

    fn stands(tokens: &Cursor<'_, Placed<Token>>) -> bool {
        stands_word(tokens, Word::Annex)
    }

    fn read(
        alloc: Global,
        tokens: &mut Cursor<'_, Placed<Token>>,
    ) -> Result<Self::Value, ReadFault> {
        keyword(tokens, Word::Annex)?;
        let name = read_one::<NameAt>(alloc, tokens)?;
        let body = read_one::<AnnexBody>(alloc, tokens)?;
        sign(tokens, Mark::Semicolon)?;
        let (text, text_place) = body;
        Ok(Annex {
            name,
            text,
            text_place,
        })
    }
}

impl Closed for Annexes {
    ghost closed = { refl };
}

impl Behind<Annexes> for Annexes {
    ghost apart = { refl };
}
