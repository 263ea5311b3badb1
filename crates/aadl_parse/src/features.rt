//! Reading features.

ghost use Rattle.std.specs.Prelude.{[], refl};
ghost use Rattle.aadl_parse.specs.Grammar.{SpellsFeature};
ghost use Rattle.aadl_parse.specs.Parts.{a_feature};
ghost use Rattle.aadl_parse.specs.Terminals.{name_shapes};

use crate::leaf::{read_one, stands};
use crate::name_token::NameAt;
use crate::own::ending;
use crate::part::{Behind, Part};
use crate::port_kinds::kind;
use crate::section::Member;
use crate::symbols::sign;
use crate::word_token::DirectionWord;
use aadl_tree::{Feature, Mark, Token};
use hw_text::{Cursor, Placed, ReadFault};
use std::alloc::Global;

/// NAME ":" ( "in" | "out" ) kind [ own ] ";"
pub struct FeatureText;

impl Part for FeatureText {
    type Value = Feature;

    ghost spells = { SpellsFeature };

    ghost starts = { name_shapes };

    ghost goes_on = { [] };

    ghost sample = { a_feature.sample };

    ghost begun = { a_feature.begins };

    fn stands(tokens: &Cursor<'_, Placed<Token>>) -> bool {
        stands::<NameAt>(tokens)
    }

    fn read(
        alloc: Global,
        tokens: &mut Cursor<'_, Placed<Token>>,
    ) -> Result<Self::Value, ReadFault> {
        let name = read_one::<NameAt>(alloc, tokens)?;
        sign(tokens, Mark::Colon)?;
        let direction = read_one::<DirectionWord>(alloc, tokens)?;
        let kind = kind(alloc, tokens)?;
        let own = ending(alloc, tokens)?;
        Ok(Feature {
            name,
            direction,
            kind,
            own,
        })
    }
}

impl Behind<FeatureText> for FeatureText {
    ghost apart = { refl };
}

impl Member for FeatureText {
    ghost listed = { refl };
}
