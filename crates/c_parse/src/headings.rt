//! The readers of what stands before the names of variables and functions.

ghost use Rattle.hw_text.specs.Reading.{Reads, Anything, BeginsWithout};
ghost use Rattle.c_parse.specs.declared.keyword.Keyword.TheVariants as keyword;
ghost use Rattle.c_parse.specs.Values.{is_word};
ghost use Rattle.c_parse.specs.UnitGrammar.{SpellsStatic, SpellsResult, SpellsHeading};

use crate::keyword::Keyword;
use crate::leaf::read_one;
use crate::terminals::NameAt;
use crate::token::Token;
use crate::types::type_name;
use crate::words::{stands_word, word};
use c_tree::{Named, TypeName};
use hw_text::{Cursor, Placed, ReadFault};
use std::alloc::Global;

/// What a variable or a function begins with; without a type it is `void`.
#[derive(Debug, Drop)]
pub struct Heading {
    pub is_static: bool,
    pub class: Option<TypeName>,
    pub name: Named,
}

/// Reads `static`, if it is there.
fn static_word(tokens: &mut Cursor<'_, Placed<Token>>) -> Result<bool, ReadFault>
    ensures { Reads SpellsStatic (BeginsWithout (is_word keyword.Static)) tokens.old tokens.new result }
{
    if !stands_word(tokens, Keyword::Static) {
        return Ok(false);
    }
    word(tokens, Keyword::Static)?;
    Ok(true)
}

/// Reads `void` or a type.
fn result_type(
    alloc: Global,
    tokens: &mut Cursor<'_, Placed<Token>>,
) -> Result<Option<TypeName>, ReadFault>
    ensures { Reads SpellsResult Anything tokens.old tokens.new result }
{
    if stands_word(tokens, Keyword::Void) {
        word(tokens, Keyword::Void)?;
        return Ok(None);
    }
    let class = type_name(alloc, tokens)?;
    Ok(Some(class))
}

/// Reads a heading.
pub fn read_heading(
    alloc: Global,
    tokens: &mut Cursor<'_, Placed<Token>>,
) -> Result<Heading, ReadFault>
    ensures { Reads SpellsHeading Anything tokens.old tokens.new result }
{
    let is_static = static_word(tokens)?;
    let class = result_type(alloc, tokens)?;
    let name = read_one::<NameAt>(alloc, tokens)?;
    Ok(Heading {
        is_static,
        class,
        name,
    })
}
