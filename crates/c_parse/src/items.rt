//! The readers of items.

ghost use Rattle.hw_text.specs.Language.{Each};
ghost use Rattle.hw_text.specs.Reading.{Reads, Anything, TheEnd};
ghost use Rattle.c_parse.specs.UnitGrammar.{ItemBehind, SpellsDeclared, SpellsItem};

use crate::externals::{external, pointer};
use crate::functions::function_behind;
use crate::headings::{Heading, read_heading};
use crate::keyword::Keyword;
use crate::leaf::stands;
use crate::mark::Mark;
use crate::token::Token;
use crate::typedefs::typedef;
use crate::variables::variable_behind;
use crate::words::stands_word_in_full;
use c_tree::{Dialect, Item};
use hw_text::{Cursor, Placed, ReadFault, Rows};
use std::alloc::Global;

/// Reads what stands behind a heading.
fn item_behind(
    alloc: Global,
    tokens: &mut Cursor<'_, Placed<Token>>,
    dialect: Dialect,
    heading: Heading,
) -> Result<Item, ReadFault>
    ensures { Reads (ItemBehind dialect heading heading.class) Anything tokens.old tokens.new result }
{
    let Heading {
        is_static,
        class,
        name,
    } = heading;
    let Some(class) = class else {
        let heading = Heading {
            is_static,
            class: None,
            name,
        };
        return function_behind(alloc, tokens, dialect, heading);
    };
    if stands(tokens, Mark::OpenParenthesis) {
        let heading = Heading {
            is_static,
            class: Some(class),
            name,
        };
        return function_behind(alloc, tokens, dialect, heading);
    }
    variable_behind(alloc, tokens, is_static, class, name)
}

/// Reads a variable, a function or a prototype.
fn declared(
    alloc: Global,
    tokens: &mut Cursor<'_, Placed<Token>>,
    dialect: Dialect,
) -> Result<Item, ReadFault>
    ensures { Reads (SpellsDeclared dialect) Anything tokens.old tokens.new result }
{
    let heading = read_heading(alloc, tokens)?;
    item_behind(alloc, tokens, dialect, heading)
}

/// Reads an item.
pub fn item(
    alloc: Global,
    tokens: &mut Cursor<'_, Placed<Token>>,
    dialect: Dialect,
) -> Result<Item, ReadFault>
    ensures { Reads (SpellsItem dialect) Anything tokens.old tokens.new result }
{
    if stands_word_in_full(tokens, dialect, Keyword::Typedef) {
        return typedef(alloc, tokens);
    }
    if stands_word_in_full(tokens, dialect, Keyword::Extern) {
        let variable = external(alloc, tokens)?;
        return Ok(Item::External(variable));
    }
    if stands_word_in_full(tokens, dialect, Keyword::Volatile) {
        let variable = pointer(alloc, tokens)?;
        return Ok(Item::Pointer(variable));
    }
    declared(alloc, tokens, dialect)
}

/// Reads items up to the end.
pub fn items(
    alloc: Global,
    tokens: &mut Cursor<'_, Placed<Token>>,
    dialect: Dialect,
) -> Result<Rows<Item>, ReadFault>
    ensures { Reads (Each (SpellsItem dialect)) TheEnd tokens.old tokens.new result }
{
    let mut all = Rows::new(alloc);
    'all: while tokens.left() > 0 {
        let next = item(alloc, tokens, dialect)?;
        all.push(next)?;
    }
    Ok(all)
}
