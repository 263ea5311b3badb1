//! The readers of typedefs.

ghost use Rattle.hw_text.specs.Language.{Each};
ghost use Rattle.hw_text.specs.Reading.{Reads, Anything, BeginsWith, BeginsWithout};
ghost use Rattle.c_parse.specs.declared.mark.Mark.TheVariants as mark;
ghost use Rattle.c_parse.specs.Values.{is_mark};
ghost use Rattle.c_parse.specs.ExpressionGrammar.{Name};
ghost use Rattle.c_parse.specs.CallGrammar.{BehindComma};
ghost use Rattle.c_parse.specs.TypedefGrammar.{Opening, Closing, SpellsEnumeration, SpellsMember, SpellsStructure, SpellsTypedef};

use crate::keyword::Keyword;
use crate::leaf::{read_one, sign, stands};
use crate::mark::Mark;
use crate::terminals::NameAt;
use crate::token::Token;
use crate::types::{length, type_name};
use crate::words::{stands_word, word};
use c_tree::{Enumeration, Item, Member, Named, Structure};
use hw_text::{Cursor, Placed, ReadFault, Rows};
use std::alloc::Global;

/// Reads what begins an enumeration or a struct.
fn opening(tokens: &mut Cursor<'_, Placed<Token>>, kind: Keyword) -> Result<(), ReadFault>
    ensures { Reads (Opening kind) Anything tokens.old tokens.new result }
{
    word(tokens, kind)?;
    sign(tokens, Mark::OpenBrace)?;
    Ok(())
}

/// Reads what ends an enumeration or a struct.
fn closing(alloc: Global, tokens: &mut Cursor<'_, Placed<Token>>) -> Result<Named, ReadFault>
    ensures { Reads Closing Anything tokens.old tokens.new result }
{
    sign(tokens, Mark::CloseBrace)?;
    let name = read_one::<NameAt>(alloc, tokens)?;
    sign(tokens, Mark::Semicolon)?;
    Ok(name)
}

/// Reads a comma and a name.
fn next_name(alloc: Global, tokens: &mut Cursor<'_, Placed<Token>>) -> Result<Named, ReadFault>
    ensures { Reads (BehindComma Name) Anything tokens.old tokens.new result }
{
    sign(tokens, Mark::Comma)?;
    let name = read_one::<NameAt>(alloc, tokens)?;
    Ok(name)
}

/// Reads names, each behind a comma.
fn other_names(
    alloc: Global,
    tokens: &mut Cursor<'_, Placed<Token>>,
) -> Result<Rows<Named>, ReadFault>
    ensures { Reads (Each (BehindComma Name)) (BeginsWithout (is_mark mark.Comma)) tokens.old tokens.new result }
{
    let mut names = Rows::new(alloc);
    'names: while stands(tokens, Mark::Comma) {
        let name = next_name(alloc, tokens)?;
        names.push(name)?;
    }
    Ok(names)
}

/// Reads an enumeration.
fn enumeration(
    alloc: Global,
    tokens: &mut Cursor<'_, Placed<Token>>,
) -> Result<Enumeration, ReadFault>
    ensures { Reads SpellsEnumeration Anything tokens.old tokens.new result }
{
    opening(tokens, Keyword::Enum)?;
    let first = read_one::<NameAt>(alloc, tokens)?;
    let others = other_names(alloc, tokens)?;
    let name = closing(alloc, tokens)?;
    Ok(Enumeration {
        first,
        others,
        name,
    })
}

/// Reads a member of a struct.
fn member(alloc: Global, tokens: &mut Cursor<'_, Placed<Token>>) -> Result<Member, ReadFault>
    ensures { Reads SpellsMember Anything tokens.old tokens.new result }
{
    let class = type_name(alloc, tokens)?;
    let name = read_one::<NameAt>(alloc, tokens)?;
    let length = length(alloc, tokens)?;
    sign(tokens, Mark::Semicolon)?;
    Ok(Member {
        class,
        name,
        length,
    })
}

/// Reads members up to the brace behind them.
fn other_members(
    alloc: Global,
    tokens: &mut Cursor<'_, Placed<Token>>,
) -> Result<Rows<Member>, ReadFault>
    ensures { Reads (Each SpellsMember) (BeginsWith (is_mark mark.CloseBrace)) tokens.old tokens.new result }
{
    let mut members = Rows::new(alloc);
    'members: while !stands(tokens, Mark::CloseBrace) {
        let next = member(alloc, tokens)?;
        members.push(next)?;
    }
    Ok(members)
}

/// Reads a struct.
fn structure(alloc: Global, tokens: &mut Cursor<'_, Placed<Token>>) -> Result<Structure, ReadFault>
    ensures { Reads SpellsStructure Anything tokens.old tokens.new result }
{
    opening(tokens, Keyword::Struct)?;
    let first = member(alloc, tokens)?;
    let others = other_members(alloc, tokens)?;
    let name = closing(alloc, tokens)?;
    Ok(Structure {
        first,
        others,
        name,
    })
}

/// Reads a typedef.
pub fn typedef(alloc: Global, tokens: &mut Cursor<'_, Placed<Token>>) -> Result<Item, ReadFault>
    ensures { Reads SpellsTypedef Anything tokens.old tokens.new result }
{
    word(tokens, Keyword::Typedef)?;
    if stands_word(tokens, Keyword::Enum) {
        let made = enumeration(alloc, tokens)?;
        return Ok(Item::Enumeration(made));
    }
    let made = structure(alloc, tokens)?;
    Ok(Item::Structure(made))
}
