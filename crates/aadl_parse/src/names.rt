//! Reading names that are made of several.

ghost use Rattle.std.specs.Prelude.{[], ◌∷◌, codes, refl};
ghost use Rattle.hw_text.specs.Language.{One, ◌⋅◌, Made};
ghost use Rattle.hw_text.specs.Reading.{Reads};
ghost use Rattle.aadl_parse.specs.Grammar.{SpellsImplementationName};
ghost use Rattle.aadl_parse.specs.Parts.{a_behind_colons, a_dotted};
ghost use Rattle.aadl_parse.specs.Shapes.{Without};
ghost use Rattle.aadl_parse.specs.SimpleValue.{Symbol, SpellsQualified, SpellsPath, name_behind};
ghost use Rattle.aadl_parse.specs.Terminals.{name_of};

use crate::leaf::read_one;
use crate::name_token::{BareName, NameAt};
use crate::part::{Behind, Part};
use crate::repeat::each;
use crate::symbols::{sign, stands_mark};
use aadl_tree::{ImplementationName, Mark, Path, QualifiedName, Token};
use hw_text::{Cursor, Name, Placed, ReadFault};
use std::alloc::Global;

/// "::" NAME
pub struct ColonName;

impl Part for ColonName {
    type Value = Name;

    ghost spells = { Made name_behind (Symbol (codes "::") ⋅ One name_of) };

    ghost starts = { codes "::" ∷ [] };

    ghost goes_on = { [] };

    ghost sample = { a_behind_colons.sample };

    ghost begun = { a_behind_colons.begins };

    fn stands(tokens: &Cursor<'_, Placed<Token>>) -> bool {
        stands_mark(tokens, Mark::DoubleColon)
    }

    fn read(
        alloc: Global,
        tokens: &mut Cursor<'_, Placed<Token>>,
    ) -> Result<Self::Value, ReadFault> {
        sign(tokens, Mark::DoubleColon)?;
        let name = read_one::<BareName>(alloc, tokens)?;
        Ok(name)
    }
}

impl Behind<ColonName> for ColonName {
    ghost apart = { refl };
}

/// "." NAME
pub struct DotName;

impl Part for DotName {
    type Value = Name;

    ghost spells = { Made name_behind (Symbol (codes ".") ⋅ One name_of) };

    ghost starts = { codes "." ∷ [] };

    ghost goes_on = { [] };

    ghost sample = { a_dotted.sample };

    ghost begun = { a_dotted.begins };

    fn stands(tokens: &Cursor<'_, Placed<Token>>) -> bool {
        stands_mark(tokens, Mark::Dot)
    }

    fn read(
        alloc: Global,
        tokens: &mut Cursor<'_, Placed<Token>>,
    ) -> Result<Self::Value, ReadFault> {
        sign(tokens, Mark::Dot)?;
        let name = read_one::<BareName>(alloc, tokens)?;
        Ok(name)
    }
}

impl Behind<DotName> for DotName {
    ghost apart = { refl };
}

/// Reads NAME { "::" NAME }.
pub fn qualified(
    alloc: Global,
    tokens: &mut Cursor<'_, Placed<Token>>,
) -> Result<QualifiedName, ReadFault>
    ensures { Reads SpellsQualified (Without (codes "::" ∷ [])) tokens.old tokens.new result }
{
    let first = read_one::<NameAt>(alloc, tokens)?;
    let others = each::<ColonName>(alloc, tokens)?;
    Ok(QualifiedName { first, others })
}

/// Reads NAME { "." NAME }.
pub fn path(alloc: Global, tokens: &mut Cursor<'_, Placed<Token>>) -> Result<Path, ReadFault>
    ensures { Reads SpellsPath (Without (codes "." ∷ [])) tokens.old tokens.new result }
{
    let first = read_one::<NameAt>(alloc, tokens)?;
    let others = each::<DotName>(alloc, tokens)?;
    Ok(Path { first, others })
}

/// Reads NAME "." NAME.
pub fn implementation_name(
    alloc: Global,
    tokens: &mut Cursor<'_, Placed<Token>>,
) -> Result<ImplementationName, ReadFault>
    ensures { Reads SpellsImplementationName (Without []) tokens.old tokens.new result }
{
    let component_type = read_one::<NameAt>(alloc, tokens)?;
    let name = DotName::read(alloc, tokens)?;
    Ok(ImplementationName {
        component_type,
        name,
    })
}
