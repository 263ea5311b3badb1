//! Reading classifiers.

ghost use Rattle.std.specs.Prelude.{[], ◌∷◌, codes};
ghost use Rattle.hw_text.specs.Language.{One, ◌⋅◌, Each, Made};
ghost use Rattle.hw_text.specs.Reading.{Reads};
ghost use Rattle.aadl_parse.specs.Parts.{class_goes_on};
ghost use Rattle.aadl_parse.specs.Shapes.{Without};
ghost use Rattle.aadl_parse.specs.SimpleValue.{Symbol, SpellsBaseClass, SpellsModelClass, SpellsClass, name_behind};
ghost use Rattle.aadl_parse.specs.Terminals.{class_name_of, name_of};

use crate::leaf::{read_one, stands};
use crate::name_token::{BaseName, BasePackage, ClassNameAt};
use crate::names::{ColonName, DotName};
use crate::repeat::{each, optional};
use crate::symbols::sign;
use aadl_tree::{Class, ClassName, Mark, ModelClass, Token};
use hw_text::{Cursor, Name, Place, Placed, ReadFault, Rows};
use std::alloc::Global;

/// Reads "base_types" "::" BASE.
fn base_class(alloc: Global, tokens: &mut Cursor<'_, Placed<Token>>) -> Result<Class, ReadFault>
    ensures { Reads SpellsBaseClass (Without []) tokens.old tokens.new result }
{
    let place = read_one::<BasePackage>(alloc, tokens)?;
    sign(tokens, Mark::DoubleColon)?;
    let base = read_one::<BaseName>(alloc, tokens)?;
    Ok(Class::Base(place, base))
}

/// Reads NAME { "::" NAME }, whose first name is not `base_types`.
fn class_names(
    alloc: Global,
    tokens: &mut Cursor<'_, Placed<Token>>,
) -> Result<((ClassName, Place), Rows<Name>), ReadFault>
    ensures { Reads (One class_name_of ⋅ Each (Made name_behind (Symbol (codes "::") ⋅ One name_of))) (Without (codes "::" ∷ [])) tokens.old tokens.new result }
{
    let first = read_one::<ClassNameAt>(alloc, tokens)?;
    let others = each::<ColonName>(alloc, tokens)?;
    Ok((first, others))
}

/// Reads NAME { "::" NAME } [ "." NAME ], whose first name is not `base_types`.
fn model_class(alloc: Global, tokens: &mut Cursor<'_, Placed<Token>>) -> Result<Class, ReadFault>
    ensures { Reads SpellsModelClass (Without class_goes_on) tokens.old tokens.new result }
{
    let names = class_names(alloc, tokens)?;
    let implementation = optional::<DotName>(alloc, tokens)?;
    let ((first, place), others) = names;
    Ok(Class::Model(ModelClass {
        first,
        place,
        others,
        implementation,
    }))
}

/// Reads a base type, or a type of the model's own.
pub fn class(alloc: Global, tokens: &mut Cursor<'_, Placed<Token>>) -> Result<Class, ReadFault>
    ensures { Reads SpellsClass (Without class_goes_on) tokens.old tokens.new result }
{
    if stands::<BasePackage>(tokens) {
        let base = base_class(alloc, tokens)?;
        return Ok(base);
    }
    let model = model_class(alloc, tokens)?;
    Ok(model)
}
