//! Reading the paths that an association applies to.

ghost use Rattle.std.specs.Prelude.{[], ◌∷◌, codes, refl};
ghost use Rattle.hw_text.specs.Language.{◌⋅◌, Each, Made};
ghost use Rattle.hw_text.specs.Reading.{Reads};
ghost use Rattle.aadl_parse.specs.Builds.{listed};
ghost use Rattle.aadl_parse.specs.Shapes.{Without};
ghost use Rattle.aadl_parse.specs.Grammar.{BehindComma, SpellsApplies};
ghost use Rattle.aadl_parse.specs.Parts.{a_path, behind_comma, an_applies};
ghost use Rattle.aadl_parse.specs.SimpleValue.{SpellsPath};

use crate::names::path;
use crate::part::{Behind, Part};
use crate::repeat::behind_first;
use crate::symbols::{keyword, sign, stands_mark, stands_word};
use aadl_tree::{Mark, Path, Token, Word};
use hw_text::{Cursor, Placed, ReadFault, Rows};
use std::alloc::Global;

/// "," path
struct CommaPath;

impl Part for CommaPath {
    type Value = Path;

    ghost spells = { BehindComma SpellsPath };

    ghost starts = { codes "," ∷ [] };

    ghost goes_on = { codes "." ∷ [] };

    ghost sample = { (behind_comma a_path).sample };

    ghost begun = { (behind_comma a_path).begins };

    fn stands(tokens: &Cursor<'_, Placed<Token>>) -> bool {
        stands_mark(tokens, Mark::Comma)
    }

    fn read(
        alloc: Global,
        tokens: &mut Cursor<'_, Placed<Token>>,
    ) -> Result<Self::Value, ReadFault> {
        sign(tokens, Mark::Comma)?;
        let path = path(alloc, tokens)?;
        Ok(path)
    }
}

impl Behind<CommaPath> for CommaPath {
    ghost apart = { refl };
}

/// Reads path { "," path }.
fn listed(alloc: Global, tokens: &mut Cursor<'_, Placed<Token>>) -> Result<Rows<Path>, ReadFault>
    ensures { Reads (Made listed (SpellsPath ⋅ Each (BehindComma SpellsPath))) (Without (codes "." ∷ codes "," ∷ codes "." ∷ [])) tokens.old tokens.new result }
{
    let first = path(alloc, tokens)?;
    let paths = behind_first::<CommaPath>(alloc, tokens, first)?;
    Ok(paths)
}

/// "applies" "to" path { "," path }
pub struct AppliesText;

impl Part for AppliesText {
    type Value = Rows<Path>;

    ghost spells = { SpellsApplies };

    ghost starts = { codes "applies" ∷ [] };

    ghost goes_on = { codes "." ∷ codes "," ∷ codes "." ∷ [] };

    ghost sample = { an_applies.sample };

    ghost begun = { an_applies.begins };

    fn stands(tokens: &Cursor<'_, Placed<Token>>) -> bool {
        stands_word(tokens, Word::Applies)
    }

    fn read(
        alloc: Global,
        tokens: &mut Cursor<'_, Placed<Token>>,
    ) -> Result<Self::Value, ReadFault> {
        keyword(tokens, Word::Applies)?;
        keyword(tokens, Word::To)?;
        let paths = listed(alloc, tokens)?;
        Ok(paths)
    }
}
