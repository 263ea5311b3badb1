//! The readers of what variables begin with.

ghost use Rattle.std.specs.Prelude.{◌≡◌};
ghost use Rattle.hw_text.specs.Language.{Made};
ghost use Rattle.hw_text.specs.Reading.{Reads, Anything, begins};
ghost use Rattle.c_parse.specs.Values.{is_truth};
ghost use Rattle.c_parse.specs.PlainGrammar.{SpellsZeros};
ghost use Rattle.c_parse.specs.UnitGrammar.{SpellsInitial};

use crate::keyword::Keyword;
use crate::leaf::{read_one, sign, stands};
use crate::mark::Mark;
use crate::names::stands_name;
use crate::terminals::{NameAt, TruthAt, ZeroAt};
use crate::token::Token;
use crate::types::signed_literal;
use c_tree::InitialValue;
use hw_text::{Cursor, Placed, ReadFault};
use std::alloc::Global;

/// Reads `{ 0 }`.
pub fn zeros(alloc: Global, tokens: &mut Cursor<'_, Placed<Token>>) -> Result<(), ReadFault>
    ensures { Reads SpellsZeros Anything tokens.old tokens.new result }
{
    sign(tokens, Mark::OpenBrace)?;
    read_one::<ZeroAt>(alloc, tokens)?;
    sign(tokens, Mark::CloseBrace)?;
    Ok(())
}

/// Whether `true` or `false` is ahead.
pub fn stands_truth(tokens: &Cursor<'_, Placed<Token>>) -> bool
    ensures { result ≡ begins is_truth tokens.now }
{
    match tokens.peek() {
        Some(token) => matches!(
            &token.token,
            Token::Keyword(Keyword::True) | Token::Keyword(Keyword::False)
        ),
        None => false,
    }
}

/// Reads what a file-scope variable begins with.
pub fn initial_value(
    alloc: Global,
    tokens: &mut Cursor<'_, Placed<Token>>,
) -> Result<InitialValue, ReadFault>
    ensures { Reads SpellsInitial Anything tokens.old tokens.new result }
{
    if stands(tokens, Mark::OpenBrace) {
        zeros(alloc, tokens)?;
        return Ok(InitialValue::Zero);
    }
    if stands_truth(tokens) {
        let (place, value) = read_one::<TruthAt>(alloc, tokens)?;
        return Ok(InitialValue::Truth(place, value));
    }
    if stands_name(tokens) {
        let name = read_one::<NameAt>(alloc, tokens)?;
        return Ok(InitialValue::Enumerator(name));
    }
    let number = signed_literal(alloc, tokens)?;
    Ok(InitialValue::Number(number))
}
