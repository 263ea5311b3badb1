//! Reading imports.

ghost use Rattle.std.specs.Prelude.{[], ◌∷◌, codes, refl};
ghost use Rattle.aadl_parse.specs.Grammar.{BehindComma, SpellsImport};
ghost use Rattle.aadl_parse.specs.Parts.{a_qualified, behind_comma, an_import};
ghost use Rattle.aadl_parse.specs.SimpleValue.{SpellsQualified};

use crate::names::qualified;
use crate::part::{Behind, Closed, Part};
use crate::repeat::each;
use crate::symbols::{keyword, sign, stands_mark, stands_word};
use aadl_tree::{Import, Mark, QualifiedName, Token, Word};
use hw_text::{Cursor, Placed, ReadFault};
use std::alloc::Global;

/// "," pname
struct CommaQualified;

impl Part for CommaQualified {
    type Value = QualifiedName;

    ghost spells = { BehindComma SpellsQualified };

    ghost starts = { codes "," ∷ [] };

    ghost goes_on = { codes "::" ∷ [] };

    ghost sample = { (behind_comma a_qualified).sample };

    ghost begun = { (behind_comma a_qualified).begins };

    fn stands(tokens: &Cursor<'_, Placed<Token>>) -> bool {
        stands_mark(tokens, Mark::Comma)
    }

    fn read(
        alloc: Global,
        tokens: &mut Cursor<'_, Placed<Token>>,
    ) -> Result<Self::Value, ReadFault> {
        sign(tokens, Mark::Comma)?;
        let name = qualified(alloc, tokens)?;
        Ok(name)
    }
}

impl Behind<CommaQualified> for CommaQualified {
    ghost apart = { refl };
}

/// "with" pname { "," pname } ";"
pub struct ImportText;

impl Part for ImportText {
    type Value = Import;

    ghost spells = { SpellsImport };

    ghost starts = { codes "with" ∷ [] };

    ghost goes_on = { [] };

    ghost sample = { an_import.sample };

    ghost begun = { an_import.begins };

    fn stands(tokens: &Cursor<'_, Placed<Token>>) -> bool {
        stands_word(tokens, Word::With)
    }

    fn read(
        alloc: Global,
        tokens: &mut Cursor<'_, Placed<Token>>,
    ) -> Result<Self::Value, ReadFault> {
        keyword(tokens, Word::With)?;
        let first = qualified(alloc, tokens)?;
        let others = each::<CommaQualified>(alloc, tokens)?;
        sign(tokens, Mark::Semicolon)?;
        Ok(Import { first, others })
    }
}

impl Closed for ImportText {
    ghost closed = { refl };
}

impl Behind<ImportText> for ImportText {
    ghost apart = { refl };
}
