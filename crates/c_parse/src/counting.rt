//! The readers of the heads of loops.

ghost use Rattle.std.specs.Prelude.{◌≡◌};
ghost use Rattle.hw_text.specs.Language.{One};
ghost use Rattle.hw_text.specs.Reading.{Reads, Anything, ahead};
ghost use Rattle.c_parse.specs.Values.{again_of};
ghost use Rattle.c_parse.specs.CountGrammar.{SpellsCountStart, SpellsCountEnd, SpellsCount, SpellsForeverHead};

use crate::leaf::{read_one, sign};
use crate::mark::Mark;
use crate::terminals::{IntegerAt, NameAt};
use crate::token::Token;
use crate::types::signed_literal;
use c_tree::{Identifier, IntegerType, Named, SignedLiteral};
use hw_text::{Cursor, Place, Placed, ReadFault};
use std::alloc::Global;

/// With which number a loop begins, and in which variable.
#[derive(Debug, Drop)]
pub struct CountStart {
    pub class: IntegerType,
    pub name: Named,
    pub from: SignedLiteral,
}

/// Below which number a loop ends, and where its `<` stands.
#[derive(Debug, Drop)]
pub struct CountEnd {
    pub place: Place,
    pub below: SignedLiteral,
}

/// Where the token stands, if it is this name.
fn again_of(name: &Identifier, token: &Placed<Token>) -> Option<Place>
    ensures { result ≡ again_of name.now token.now }
{
    match &token.token {
        Token::Name(other) if other.rows() == name.rows() => Some(token.place),
        _ => None,
    }
}

/// Where this name stands, if it is ahead.
fn again_ahead(tokens: &Cursor<'_, Placed<Token>>, name: &Identifier) -> Option<Place>
    ensures { result ≡ ahead (again_of name.now) tokens.now }
{
    match tokens.peek() {
        Some(token) => again_of(name, token),
        None => None,
    }
}

/// Reads this name.
fn again(tokens: &mut Cursor<'_, Placed<Token>>, name: &Identifier) -> Result<Place, ReadFault>
    ensures { Reads (One (again_of name.now)) Anything tokens.old tokens.new result }
{
    let Some(place) = again_ahead(tokens, name) else {
        return Err(ReadFault::Syntax);
    };
    tokens.pass();
    Ok(place)
}

/// Reads the beginning of a range, up to the first `;`.
fn count_start(
    alloc: Global,
    tokens: &mut Cursor<'_, Placed<Token>>,
) -> Result<CountStart, ReadFault>
    ensures { Reads SpellsCountStart Anything tokens.old tokens.new result }
{
    let (_, class) = read_one::<IntegerAt>(alloc, tokens)?;
    let name = read_one::<NameAt>(alloc, tokens)?;
    sign(tokens, Mark::Assign)?;
    let from = signed_literal(alloc, tokens)?;
    sign(tokens, Mark::Semicolon)?;
    Ok(CountStart { class, name, from })
}

/// Reads the end of a range over this variable.
fn count_end(
    alloc: Global,
    tokens: &mut Cursor<'_, Placed<Token>>,
    name: &Identifier,
) -> Result<CountEnd, ReadFault>
    ensures { Reads (SpellsCountEnd name.now) Anything tokens.old tokens.new result }
{
    again(tokens, name)?;
    let place = sign(tokens, Mark::Less)?;
    let below = signed_literal(alloc, tokens)?;
    sign(tokens, Mark::Semicolon)?;
    again(tokens, name)?;
    sign(tokens, Mark::Increment)?;
    sign(tokens, Mark::CloseParenthesis)?;
    Ok(CountEnd { place, below })
}

/// Reads a range, behind `for (`.
pub fn count(
    alloc: Global,
    tokens: &mut Cursor<'_, Placed<Token>>,
) -> Result<(CountStart, CountEnd), ReadFault>
    ensures { Reads SpellsCount Anything tokens.old tokens.new result }
{
    let start = count_start(alloc, tokens)?;
    let end = count_end(alloc, tokens, &start.name.name)?;
    Ok((start, end))
}

/// Reads the head of a loop without end, behind `for (`.
pub fn forever_head(tokens: &mut Cursor<'_, Placed<Token>>) -> Result<(), ReadFault>
    ensures { Reads SpellsForeverHead Anything tokens.old tokens.new result }
{
    sign(tokens, Mark::Semicolon)?;
    sign(tokens, Mark::Semicolon)?;
    sign(tokens, Mark::CloseParenthesis)?;
    Ok(())
}
