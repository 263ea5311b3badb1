//! Reading property associations.

ghost use Rattle.std.specs.Prelude.{[], ◌∷◌, codes, refl};
ghost use Rattle.hw_text.specs.Language.{Maybe};
ghost use Rattle.hw_text.specs.Reading.{Reads};
ghost use Rattle.aadl_parse.specs.Grammar.{BehindComma, SpellsAssociation};
ghost use Rattle.aadl_parse.specs.Parts.{a_value, behind_comma, an_association};
ghost use Rattle.aadl_parse.specs.Shapes.{Without};
ghost use Rattle.aadl_parse.specs.SimpleValue.{Symbol, value_goes_on};
ghost use Rattle.aadl_parse.specs.Terminals.{name_shapes};
ghost use Rattle.aadl_parse.specs.ValueText.{SpellsValue};

use crate::leaf::{read_one, stands};
use crate::name_token::NameAt;
use crate::names::qualified;
use crate::operator_mark::OperatorMark;
use crate::part::{Behind, Closed, Part};
use crate::paths::AppliesText;
use crate::repeat::{each, optional};
use crate::section::{Member, or_none};
use crate::symbols::{keyword, sign, stands_mark, stands_word};
use crate::value::read_value;
use aadl_tree::{Association, Mark, PropertyValue, Token, Word};
use hw_text::{Cursor, Placed, ReadFault};
use std::alloc::Global;

/// "," value
struct CommaValue;

impl Part for CommaValue {
    type Value = PropertyValue;

    ghost spells = { BehindComma SpellsValue };

    ghost starts = { codes "," ∷ [] };

    ghost goes_on = { value_goes_on };

    ghost sample = { (behind_comma a_value).sample };

    ghost begun = { (behind_comma a_value).begins };

    fn stands(tokens: &Cursor<'_, Placed<Token>>) -> bool {
        stands_mark(tokens, Mark::Comma)
    }

    fn read(
        alloc: Global,
        tokens: &mut Cursor<'_, Placed<Token>>,
    ) -> Result<Self::Value, ReadFault> {
        sign(tokens, Mark::Comma)?;
        let value = read_value(alloc, tokens)?;
        Ok(value)
    }
}

impl Behind<CommaValue> for CommaValue {
    ghost apart = { refl };
}

/// Reads "constant", where it is ahead.
fn constant(tokens: &mut Cursor<'_, Placed<Token>>) -> Result<Option<()>, ReadFault>
    ensures { Reads (Maybe (Symbol (codes "constant"))) (Without (codes "constant" ∷ [])) tokens.old tokens.new result }
{
    if !stands_word(tokens, Word::Constant) {
        return Ok(None);
    }
    keyword(tokens, Word::Constant)?;
    Ok(Some(()))
}

/// pname ( "=>" | "+=>" ) [ "constant" ] value { "," value } [ "applies" "to" path { "," path } ] ";"
pub struct AssociationText;

impl Part for AssociationText {
    type Value = Association;

    ghost spells = { SpellsAssociation };

    ghost starts = { name_shapes };

    ghost goes_on = { [] };

    ghost sample = { an_association.sample };

    ghost begun = { an_association.begins };

    fn stands(tokens: &Cursor<'_, Placed<Token>>) -> bool {
        stands::<NameAt>(tokens)
    }

    fn read(
        alloc: Global,
        tokens: &mut Cursor<'_, Placed<Token>>,
    ) -> Result<Self::Value, ReadFault> {
        let property = qualified(alloc, tokens)?;
        let operator = read_one::<OperatorMark>(alloc, tokens)?;
        let constant = constant(tokens)?;
        let first = read_value(alloc, tokens)?;
        let others = each::<CommaValue>(alloc, tokens)?;
        let paths = optional::<AppliesText>(alloc, tokens)?;
        sign(tokens, Mark::Semicolon)?;
        Ok(Association {
            property,
            operator,
            constant: constant.is_some(),
            first,
            others,
            applies_to: or_none(alloc, paths),
        })
    }
}

impl Closed for AssociationText {
    ghost closed = { refl };
}

impl Behind<AssociationText> for AssociationText {
    ghost apart = { refl };
}

impl Member for AssociationText {
    ghost listed = { refl };
}
