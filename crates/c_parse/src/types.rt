//! The readers of types, of literals behind a minus, and of lengths.

ghost use Rattle.std.specs.Prelude.{◌≡◌};
ghost use Rattle.hw_text.specs.Reading.{Reads, Anything, BeginsWithout, begins};
ghost use Rattle.c_parse.specs.declared.mark.Mark.TheVariants as mark;
ghost use Rattle.c_parse.specs.Values.{is_mark, is_integer, integer_of};
ghost use Rattle.c_parse.specs.CallGrammar.{SpellsType, SpellsSigned};
ghost use Rattle.c_parse.specs.TypedefGrammar.{SpellsLength};

use crate::keyword::Keyword;
use crate::leaf::{read_one, sign, stands};
use crate::mark::Mark;
use crate::terminals::{IntegerAt, LiteralAt, NameAt};
use crate::token::Token;
use crate::words::{stands_word, word};
use c_tree::{Literal, SignedLiteral, TypeName};
use hw_text::{Cursor, Placed, ReadFault};
use std::alloc::Global;

/// Whether the token is an integer type.
fn is_integer(token: &Placed<Token>) -> bool
    ensures { result ≡ is_integer token.now }
{
    matches!(&token.token, Token::Keyword(Keyword::Integer(_)))
}

/// Whether an integer type is ahead.
pub fn stands_integer(tokens: &Cursor<'_, Placed<Token>>) -> bool
    ensures { result ≡ begins is_integer tokens.now }
{
    match tokens.peek() {
        Some(token) => is_integer(token),
        None => false,
    }
}

/// Reads a type.
pub fn type_name(
    alloc: Global,
    tokens: &mut Cursor<'_, Placed<Token>>,
) -> Result<TypeName, ReadFault>
    ensures { Reads SpellsType Anything tokens.old tokens.new result }
{
    if stands_integer(tokens) {
        let (place, class) = read_one::<IntegerAt>(alloc, tokens)?;
        return Ok(TypeName::Integer(place, class));
    }
    if stands_word(tokens, Keyword::Bool) {
        let place = word(tokens, Keyword::Bool)?;
        return Ok(TypeName::Truth(place));
    }
    let named = read_one::<NameAt>(alloc, tokens)?;
    Ok(TypeName::Defined(named))
}

/// Reads a literal, maybe behind a minus.
pub fn signed_literal(
    alloc: Global,
    tokens: &mut Cursor<'_, Placed<Token>>,
) -> Result<SignedLiteral, ReadFault>
    ensures { Reads SpellsSigned Anything tokens.old tokens.new result }
{
    if stands(tokens, Mark::Minus) {
        let start = sign(tokens, Mark::Minus)?;
        let literal = read_one::<LiteralAt>(alloc, tokens)?;
        return Ok(SignedLiteral {
            start,
            negative: true,
            literal,
        });
    }
    let literal = read_one::<LiteralAt>(alloc, tokens)?;
    Ok(SignedLiteral {
        start: literal.place,
        negative: false,
        literal,
    })
}

/// Reads the length of an array, if one is there.
pub fn length(
    alloc: Global,
    tokens: &mut Cursor<'_, Placed<Token>>,
) -> Result<Option<Literal>, ReadFault>
    ensures { Reads SpellsLength (BeginsWithout (is_mark mark.OpenBracket)) tokens.old tokens.new result }
{
    if !stands(tokens, Mark::OpenBracket) {
        return Ok(None);
    }
    sign(tokens, Mark::OpenBracket)?;
    let literal = read_one::<LiteralAt>(alloc, tokens)?;
    sign(tokens, Mark::CloseBracket)?;
    Ok(Some(literal))
}
