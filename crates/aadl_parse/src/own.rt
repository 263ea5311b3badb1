//! Reading what ends features, subcomponents and connections: associations in braces, and a semicolon.

ghost use Rattle.std.specs.Prelude.{[], ◌∷◌, codes};
ghost use Rattle.hw_text.specs.Reading.{Reads};
ghost use Rattle.aadl_parse.specs.Grammar.{SpellsOwn, SpellsEnding};
ghost use Rattle.aadl_parse.specs.Parts.{an_own};
ghost use Rattle.aadl_parse.specs.Shapes.{Without};

use crate::associations::AssociationText;
use crate::part::Part;
use crate::repeat::{each, optional};
use crate::symbols::{sign, stands_mark};
use aadl_tree::{Association, Mark, Token};
use hw_text::{Cursor, Placed, ReadFault, Rows};
use std::alloc::Global;

/// "{" { assoc } "}"
struct OwnText;

impl Part for OwnText {
    type Value = Rows<Association>;

    ghost spells = { SpellsOwn };

    ghost starts = { codes "{" ∷ [] };

    ghost goes_on = { [] };

    ghost sample = { an_own.sample };

    ghost begun = { an_own.begins };

    fn stands(tokens: &Cursor<'_, Placed<Token>>) -> bool {
        stands_mark(tokens, Mark::OpenBrace)
    }

    fn read(
        alloc: Global,
        tokens: &mut Cursor<'_, Placed<Token>>,
    ) -> Result<Self::Value, ReadFault> {
        sign(tokens, Mark::OpenBrace)?;
        let associations = each::<AssociationText>(alloc, tokens)?;
        sign(tokens, Mark::CloseBrace)?;
        Ok(associations)
    }
}

/// Reads [ own ] ";".
pub fn ending(
    alloc: Global,
    tokens: &mut Cursor<'_, Placed<Token>>,
) -> Result<Option<Rows<Association>>, ReadFault>
    ensures { Reads SpellsEnding (Without []) tokens.old tokens.new result }
{
    let own = optional::<OwnText>(alloc, tokens)?;
    sign(tokens, Mark::Semicolon)?;
    Ok(own)
}
