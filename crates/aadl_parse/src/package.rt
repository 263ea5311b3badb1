//! Reading packages.

ghost use Rattle.std.specs.Prelude.{[], ◌∷◌, codes, refl};
ghost use Rattle.aadl_parse.specs.Grammar.{SpellsPackage};
ghost use Rattle.aadl_parse.specs.Parts.{a_package, package-begins};

use crate::components::DeclarationText;
use crate::imports::ImportText;
use crate::names::qualified;
use crate::part::{Closed, Part};
use crate::repeat::each;
use crate::symbols::{keyword, sign, stands_word};
use aadl_tree::{Mark, Package, Token, Word};
use hw_text::{Cursor, Placed, ReadFault};
use std::alloc::Global;

/// "package" pname "public" { with } { decl } "end" pname ";"
pub struct PackageText;

impl Part for PackageText {
    type Value = Package;

    ghost spells = { SpellsPackage };

    ghost starts = { codes "package" ∷ [] };

    ghost goes_on = { [] };

    ghost sample = { a_package };

    ghost begun = { package-begins };

    fn stands(tokens: &Cursor<'_, Placed<Token>>) -> bool {
        stands_word(tokens, Word::Package)
    }

    fn read(
        alloc: Global,
        tokens: &mut Cursor<'_, Placed<Token>>,
    ) -> Result<Self::Value, ReadFault> {
        keyword(tokens, Word::Package)?;
        let name = qualified(alloc, tokens)?;
        keyword(tokens, Word::Public)?;
        let imports = each::<ImportText>(alloc, tokens)?;
        let declarations = each::<DeclarationText>(alloc, tokens)?;
        keyword(tokens, Word::End)?;
        let end_name = qualified(alloc, tokens)?;
        sign(tokens, Mark::Semicolon)?;
        Ok(Package {
            name,
            imports,
            declarations,
            end_name,
        })
    }
}

impl Closed for PackageText {
    ghost closed = { refl };
}
