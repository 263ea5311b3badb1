//! Reading subcomponents.

ghost use Rattle.std.specs.Prelude.{[], refl};
ghost use Rattle.aadl_parse.specs.Grammar.{SpellsSubcomponent};
ghost use Rattle.aadl_parse.specs.Parts.{a_subcomponent};
ghost use Rattle.aadl_parse.specs.Terminals.{name_shapes};

use crate::classes::class;
use crate::leaf::{read_one, stands};
use crate::name_token::NameAt;
use crate::own::ending;
use crate::part::{Behind, Part};
use crate::section::Member;
use crate::symbols::sign;
use crate::word_token::CategoryWord;
use aadl_tree::{Mark, Subcomponent, Token};
use hw_text::{Cursor, Placed, ReadFault};
use std::alloc::Global;

/// NAME ":" cat class [ own ] ";"
pub struct SubcomponentText;

impl Part for SubcomponentText {
    type Value = Subcomponent;

    ghost spells = { SpellsSubcomponent };

    ghost starts = { name_shapes };

    ghost goes_on = { [] };

    ghost sample = { a_subcomponent.sample };

    ghost begun = { a_subcomponent.begins };

    fn stands(tokens: &Cursor<'_, Placed<Token>>) -> bool {
        stands::<NameAt>(tokens)
    }

    fn read(
        alloc: Global,
        tokens: &mut Cursor<'_, Placed<Token>>,
    ) -> Result<Self::Value, ReadFault> {
        let name = read_one::<NameAt>(alloc, tokens)?;
        sign(tokens, Mark::Colon)?;
        let category = read_one::<CategoryWord>(alloc, tokens)?;
        let class = class(alloc, tokens)?;
        let own = ending(alloc, tokens)?;
        Ok(Subcomponent {
            name,
            category,
            class,
            own,
        })
    }
}

impl Behind<SubcomponentText> for SubcomponentText {
    ghost apart = { refl };
}

impl Member for SubcomponentText {
    ghost listed = { refl };
}
