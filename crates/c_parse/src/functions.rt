//! The readers of what functions and prototypes have behind their headings.

ghost use Rattle.std.specs.Prelude.{◌≡◌, is_some};
ghost use Rattle.hw_text.specs.Reading.{Reads, Anything};
ghost use Rattle.c_parse.specs.UnitGrammar.{SpellsBody, SpellsEnding, FunctionBehind, returned_of, function_of};

use crate::blocks::statements;
use crate::calls::right_side;
use crate::headings::Heading;
use crate::keyword::Keyword;
use crate::leaf::{sign, stands_in_full};
use crate::mark::Mark;
use crate::parameter_list::parameters;
use crate::token::Token;
use crate::words::word;
use c_tree::{
    Dialect, Function, Item, Parameter, Prototype, Returned, RightSide, Statement, TypeName,
};
use hw_text::{Cursor, Placed, ReadFault, Rows};
use std::alloc::Global;

/// Reads the body of a function, behind its `{`.
fn body(
    alloc: Global,
    tokens: &mut Cursor<'_, Placed<Token>>,
    dialect: Dialect,
    class: &Option<TypeName>,
) -> Result<(Rows<Statement>, Option<RightSide>), ReadFault>
    ensures { Reads (SpellsBody dialect (is_some class.now)) Anything tokens.old tokens.new result }
{
    let all = statements(alloc, tokens, dialect)?;
    let Some(_) = class else {
        sign(tokens, Mark::CloseBrace)?;
        return Ok((all, None));
    };
    word(tokens, Keyword::Return)?;
    let value = right_side(alloc, tokens, dialect)?;
    sign(tokens, Mark::Semicolon)?;
    sign(tokens, Mark::CloseBrace)?;
    Ok((all, Some(value)))
}

/// Reads the body of a function, or the `;` of a prototype.
fn ending(
    alloc: Global,
    tokens: &mut Cursor<'_, Placed<Token>>,
    dialect: Dialect,
    class: &Option<TypeName>,
) -> Result<Option<(Rows<Statement>, Option<RightSide>)>, ReadFault>
    ensures { Reads (SpellsEnding dialect (is_some class.now)) Anything tokens.old tokens.new result }
{
    if stands_in_full(tokens, dialect, Mark::Semicolon) {
        sign(tokens, Mark::Semicolon)?;
        return Ok(None);
    }
    sign(tokens, Mark::OpenBrace)?;
    let body = body(alloc, tokens, dialect, class)?;
    Ok(Some(body))
}

/// What a function of this type returns.
fn returned(class: Option<TypeName>, value: Option<RightSide>) -> Option<Returned>
    ensures { result ≡ returned_of class value }
{
    let class = class?;
    let value = value?;
    Some(Returned { class, value })
}

/// A prototype where there is no body, else a function.
fn function(
    heading: Heading,
    parameters: Rows<Parameter>,
    body: Option<(Rows<Statement>, Option<RightSide>)>,
) -> Item
    ensures { result ≡ function_of heading parameters body }
{
    let Some((body, value)) = body else {
        return Item::Prototype(Prototype {
            is_static: heading.is_static,
            class: heading.class,
            name: heading.name,
            parameters,
        });
    };
    Item::Function(Function {
        is_static: heading.is_static,
        returned: returned(heading.class, value),
        name: heading.name,
        parameters,
        body,
    })
}

/// Reads the end of a function, behind its heading.
pub fn function_behind(
    alloc: Global,
    tokens: &mut Cursor<'_, Placed<Token>>,
    dialect: Dialect,
    heading: Heading,
) -> Result<Item, ReadFault>
    ensures { Reads (FunctionBehind dialect heading) Anything tokens.old tokens.new result }
{
    sign(tokens, Mark::OpenParenthesis)?;
    let parameters = parameters(alloc, tokens, dialect)?;
    sign(tokens, Mark::CloseParenthesis)?;
    let body = ending(alloc, tokens, dialect, &heading.class)?;
    Ok(function(heading, parameters, body))
}
