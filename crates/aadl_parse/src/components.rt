//! Reading declarations: component types and implementations, and annexes beside them.

ghost use Rattle.std.specs.Prelude.{[], ◌++◌, ◌∷◌, codes, refl};
ghost use Rattle.hw_text.specs.Language.{Made};
ghost use Rattle.hw_text.specs.Reading.{Reads};
ghost use Rattle.aadl_parse.specs.Builds.{type_of, implementation_of};
ghost use Rattle.aadl_parse.specs.Grammar.{SpellsTypeBody, SpellsImplementationBody, SpellsDeclaration};
ghost use Rattle.aadl_parse.specs.Parts.{a_declaration};
ghost use Rattle.aadl_parse.specs.Shapes.{Without};

use crate::annex::Annexes;
use crate::associations::AssociationText;
use crate::connections::ConnectionText;
use crate::features::FeatureText;
use crate::leaf::{read_one, stands};
use crate::name_token::NameAt;
use crate::names::implementation_name;
use crate::part::{Behind, Closed, Part};
use crate::repeat::each;
use crate::section::{or_none, section};
use crate::subcomponents::SubcomponentText;
use crate::symbols::{keyword, sign, stands_word};
use crate::word_token::CategoryWord;
use aadl_tree::{Category, ComponentType, Declaration, Implementation, Mark, Token, Word};
use hw_text::{Cursor, Placed, ReadFault};
use std::alloc::Global;

/// annex | type | impl
pub struct DeclarationText;

impl Part for DeclarationText {
    type Value = Declaration;

    ghost spells = { SpellsDeclaration };

    ghost starts = { a_declaration.shapes };

    ghost goes_on = { [] };

    ghost sample = { a_declaration.sample };

    ghost begun = { a_declaration.begins };

    fn stands(tokens: &Cursor<'_, Placed<Token>>) -> bool {
        Annexes::stands(tokens) || stands::<CategoryWord>(tokens)
    }

    fn read(
        alloc: Global,
        tokens: &mut Cursor<'_, Placed<Token>>,
    ) -> Result<Self::Value, ReadFault> {
        if Annexes::stands(tokens) {
            let annex = Annexes::read(alloc, tokens)?;
            return Ok(Declaration::Annex(annex));
        }
        let category = read_one::<CategoryWord>(alloc, tokens)?;
        if stands_word(tokens, Word::Implementation) {
            let implementation = implementation(alloc, tokens, category)?;
            return Ok(Declaration::Implementation(implementation));
        }
        let component = component_type(alloc, tokens, category)?;
        Ok(Declaration::Type(component))
    }
}

impl Closed for DeclarationText {
    ghost closed = { refl };
}

impl Behind<DeclarationText> for DeclarationText {
    ghost apart = { refl };
}

/// Reads what stands behind the category of a component type:
/// NAME [ features ] [ props ] { annex } "end" NAME ";"
fn component_type(
    alloc: Global,
    tokens: &mut Cursor<'_, Placed<Token>>,
    category: Category,
) -> Result<ComponentType, ReadFault>
    ensures { Reads (Made (type_of category) SpellsTypeBody) (Without []) tokens.old tokens.new result }
{
    let name = read_one::<NameAt>(alloc, tokens)?;
    let features = section::<FeatureText>(alloc, tokens, Word::Features)?;
    let properties = section::<AssociationText>(alloc, tokens, Word::Properties)?;
    let annexes = each::<Annexes>(alloc, tokens)?;
    keyword(tokens, Word::End)?;
    let end_name = read_one::<NameAt>(alloc, tokens)?;
    sign(tokens, Mark::Semicolon)?;
    Ok(ComponentType {
        category,
        name,
        features: or_none(alloc, features),
        properties: or_none(alloc, properties),
        annexes,
        end_name,
    })
}

/// Reads what stands behind the category of an implementation:
/// "implementation" NAME "." NAME [ subcomponents ] [ connections ] [ props ] { annex } "end" NAME "." NAME ";"
fn implementation(
    alloc: Global,
    tokens: &mut Cursor<'_, Placed<Token>>,
    category: Category,
) -> Result<Implementation, ReadFault>
    ensures { Reads (Made (implementation_of category) SpellsImplementationBody) (Without []) tokens.old tokens.new result }
{
    keyword(tokens, Word::Implementation)?;
    let name = implementation_name(alloc, tokens)?;
    let subcomponents = section::<SubcomponentText>(alloc, tokens, Word::Subcomponents)?;
    let connections = section::<ConnectionText>(alloc, tokens, Word::Connections)?;
    let properties = section::<AssociationText>(alloc, tokens, Word::Properties)?;
    let annexes = each::<Annexes>(alloc, tokens)?;
    keyword(tokens, Word::End)?;
    let end_name = implementation_name(alloc, tokens)?;
    sign(tokens, Mark::Semicolon)?;
    Ok(Implementation {
        category,
        name,
        subcomponents: or_none(alloc, subcomponents),
        connections: or_none(alloc, connections),
        properties: or_none(alloc, properties),
        annexes,
        end_name,
    })
}
