//! The readers of the parameters of functions.

ghost use Rattle.hw_text.specs.Language.{Each};
ghost use Rattle.hw_text.specs.Reading.{Reads, Anything, BeginsWithout};
ghost use Rattle.c_parse.specs.declared.mark.Mark.TheVariants as mark;
ghost use Rattle.c_parse.specs.Values.{is_mark};
ghost use Rattle.c_parse.specs.CallGrammar.{BehindComma, Following};
ghost use Rattle.c_parse.specs.UnitGrammar.{SpellsParameter, SpellsParameters};

use crate::keyword::Keyword;
use crate::leaf::{read_one, sign, stands, stands_in_full};
use crate::mark::Mark;
use crate::terminals::NameAt;
use crate::token::Token;
use crate::types::type_name;
use crate::words::{stands_word, word};
use c_tree::{Dialect, Parameter};
use hw_text::{Cursor, Placed, ReadFault, Rows};
use std::alloc::Global;

/// Reads a parameter.
fn parameter(
    alloc: Global,
    tokens: &mut Cursor<'_, Placed<Token>>,
    dialect: Dialect,
) -> Result<Parameter, ReadFault>
    ensures { Reads (SpellsParameter dialect) Anything tokens.old tokens.new result }
{
    let class = type_name(alloc, tokens)?;
    if stands_in_full(tokens, dialect, Mark::Star) {
        sign(tokens, Mark::Star)?;
        let name = read_one::<NameAt>(alloc, tokens)?;
        return Ok(Parameter {
            class,
            is_pointer: true,
            name,
        });
    }
    let name = read_one::<NameAt>(alloc, tokens)?;
    Ok(Parameter {
        class,
        is_pointer: false,
        name,
    })
}

/// Reads a comma and a parameter.
fn next_parameter(
    alloc: Global,
    tokens: &mut Cursor<'_, Placed<Token>>,
    dialect: Dialect,
) -> Result<Parameter, ReadFault>
    ensures { Reads (BehindComma (SpellsParameter dialect)) Anything tokens.old tokens.new result }
{
    sign(tokens, Mark::Comma)?;
    let next = parameter(alloc, tokens, dialect)?;
    Ok(next)
}

/// Reads more parameters, each behind a comma.
fn more_parameters(
    alloc: Global,
    tokens: &mut Cursor<'_, Placed<Token>>,
    dialect: Dialect,
    first: Parameter,
) -> Result<Rows<Parameter>, ReadFault>
    ensures { Reads (Following first (BehindComma (SpellsParameter dialect))) (BeginsWithout (is_mark mark.Comma)) tokens.old tokens.new result }
{
    let mut parameters = Rows::new(alloc);
    parameters.push(first)?;
    'parameters: while stands(tokens, Mark::Comma) {
        let next = next_parameter(alloc, tokens, dialect)?;
        parameters.push(next)?;
    }
    Ok(parameters)
}

/// Reads the parameters of a function.
pub fn parameters(
    alloc: Global,
    tokens: &mut Cursor<'_, Placed<Token>>,
    dialect: Dialect,
) -> Result<Rows<Parameter>, ReadFault>
    ensures { Reads (SpellsParameters dialect) (BeginsWithout (is_mark mark.Comma)) tokens.old tokens.new result }
{
    if stands_word(tokens, Keyword::Void) {
        word(tokens, Keyword::Void)?;
        return Ok(Rows::new(alloc));
    }
    let first = parameter(alloc, tokens, dialect)?;
    let parameters = more_parameters(alloc, tokens, dialect, first)?;
    Ok(parameters)
}
