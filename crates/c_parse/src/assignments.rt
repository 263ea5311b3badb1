//! The readers of assignments.

ghost use Rattle.std.specs.Prelude.{◌∷◌};
ghost use Rattle.hw_text.specs.Reading.{Reads, Anything};
ghost use Rattle.c_parse.specs.Values.{name_token};
ghost use Rattle.c_parse.specs.PlainGrammar.{SpellsAssignment, AssignedBehind};

use crate::calls::right_side;
use crate::expressions::{lvalue, lvalue_behind};
use crate::leaf::sign;
use crate::mark::Mark;
use crate::token::Token;
use c_tree::{Dialect, Lvalue, Named, Statement};
use hw_text::{Cursor, Placed, ReadFault};
use std::alloc::Global;

/// Reads what is assigned to this, which was passed.
fn assigned_behind(
    alloc: Global,
    tokens: &mut Cursor<'_, Placed<Token>>,
    dialect: Dialect,
    target: Lvalue,
) -> Result<Statement, ReadFault>
    ensures { Reads (AssignedBehind dialect target) Anything tokens.old tokens.new result }
{
    sign(tokens, Mark::Assign)?;
    let value = right_side(alloc, tokens, dialect)?;
    sign(tokens, Mark::Semicolon)?;
    Ok(Statement::Assign { target, value })
}

/// Reads an assignment.
pub fn assignment(
    alloc: Global,
    tokens: &mut Cursor<'_, Placed<Token>>,
    dialect: Dialect,
) -> Result<Statement, ReadFault>
    ensures { Reads (SpellsAssignment dialect) Anything tokens.old tokens.new result }
{
    let target = lvalue(alloc, tokens, dialect)?;
    assigned_behind(alloc, tokens, dialect, target)
}

/// Reads an assignment that begins with a name that was passed.
pub fn assignment_behind(
    alloc: Global,
    tokens: &mut Cursor<'_, Placed<Token>>,
    dialect: Dialect,
    name: Named,
) -> Result<Statement, ReadFault>
    ensures { Reads (SpellsAssignment dialect) Anything (name_token name ∷ tokens.old) tokens.new result }
{
    let target = lvalue_behind(alloc, tokens, dialect, name)?;
    assigned_behind(alloc, tokens, dialect, target)
}
