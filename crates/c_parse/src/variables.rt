//! The readers of what file-scope variables have behind their headings.

ghost use Rattle.hw_text.specs.Language.{Maybe, Made, ◌⋅◌};
ghost use Rattle.hw_text.specs.Reading.{Reads, Anything, BeginsWithout};
ghost use Rattle.c_parse.specs.declared.mark.Mark.TheVariants as mark;
ghost use Rattle.c_parse.specs.Values.{is_mark};
ghost use Rattle.c_parse.specs.ExpressionGrammar.{Sign};
ghost use Rattle.c_parse.specs.UnitGrammar.{SpellsInitial, VariableBehind};

use crate::initials::initial_value;
use crate::leaf::{sign, stands};
use crate::mark::Mark;
use crate::token::Token;
use crate::types::length;
use c_tree::{InitialValue, Item, Named, TypeName, Variable};
use hw_text::{Cursor, Placed, ReadFault};
use std::alloc::Global;

/// Reads what a file-scope variable begins with, if it is there.
fn given_value(
    alloc: Global,
    tokens: &mut Cursor<'_, Placed<Token>>,
) -> Result<Option<InitialValue>, ReadFault>
    ensures { Reads (Maybe (Made (λ p. p.1) (Sign mark.Assign ⋅ SpellsInitial))) (BeginsWithout (is_mark mark.Assign)) tokens.old tokens.new result }
{
    if !stands(tokens, Mark::Assign) {
        return Ok(None);
    }
    sign(tokens, Mark::Assign)?;
    let value = initial_value(alloc, tokens)?;
    Ok(Some(value))
}

/// Reads the end of a variable, behind its heading.
pub fn variable_behind(
    alloc: Global,
    tokens: &mut Cursor<'_, Placed<Token>>,
    is_static: bool,
    class: TypeName,
    name: Named,
) -> Result<Item, ReadFault>
    ensures { Reads (VariableBehind is_static class name) Anything tokens.old tokens.new result }
{
    let length = length(alloc, tokens)?;
    let initial = given_value(alloc, tokens)?;
    sign(tokens, Mark::Semicolon)?;
    Ok(Item::Variable(Variable {
        is_static,
        class,
        name,
        length,
        initial,
    }))
}
