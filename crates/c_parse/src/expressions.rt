//! The readers of expressions and of lvalues, as other readers call them.

ghost use Rattle.std.specs.Prelude.{◌∷◌};
ghost use Rattle.hw_text.specs.Reading.{Reads, BeginsWithout};
ghost use Rattle.c_parse.specs.Levels.{loosest_level};
ghost use Rattle.c_parse.specs.Operators.{Ends, is_selector};
ghost use Rattle.c_parse.specs.Values.{name_token};
ghost use Rattle.c_parse.specs.ExpressionGrammar.{SpellsWhole, SpellsLvalue};

use crate::expression_levels;
use crate::operators::LOOSEST_LEVEL;
use crate::token::Token;
use c_tree::{Dialect, Expression, Lvalue, Named};
use hw_text::{Cursor, Placed, ReadFault};
use std::alloc::Global;

/// Reads an expression, in the full grammar or in that of users.
pub fn expression(
    alloc: Global,
    tokens: &mut Cursor<'_, Placed<Token>>,
    dialect: Dialect,
) -> Result<Expression, ReadFault>
    ensures { Reads (SpellsWhole dialect) (Ends loosest_level) tokens.old tokens.new result }
{
    expression_levels::of_level(alloc, tokens, dialect, LOOSEST_LEVEL, None)
}

/// Reads an lvalue.
pub fn lvalue(
    alloc: Global,
    tokens: &mut Cursor<'_, Placed<Token>>,
    dialect: Dialect,
) -> Result<Lvalue, ReadFault>
    ensures { Reads (SpellsLvalue dialect) (BeginsWithout is_selector) tokens.old tokens.new result }
{
    expression_levels::lvalue(alloc, tokens, dialect, None)
}

/// Reads an lvalue that begins with a name that was passed.
pub fn lvalue_behind(
    alloc: Global,
    tokens: &mut Cursor<'_, Placed<Token>>,
    dialect: Dialect,
    name: Named,
) -> Result<Lvalue, ReadFault>
    ensures { Reads (SpellsLvalue dialect) (BeginsWithout is_selector) (name_token name ∷ tokens.old) tokens.new result }
{
    expression_levels::lvalue(alloc, tokens, dialect, Some(name))
}
