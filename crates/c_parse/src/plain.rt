//! The readers of statements without blocks.

ghost use Rattle.std.specs.Prelude.{◌≡◌, ◌∷◌, true};
ghost use Rattle.hw_text.specs.Reading.{Reads, Anything, begins};
ghost use Rattle.c_parse.specs.Values.{is_name, name_token};
ghost use Rattle.c_parse.specs.PlainGrammar.{SpellsCallAlone, SpellsBreak, SpellsPlain};

use crate::assignments::{assignment, assignment_behind};
use crate::calls::call_behind;
use crate::keyword::Keyword;
use crate::leaf::{read_one, sign, stands};
use crate::locals::{local, local_behind, stands_plain_type};
use crate::mark::Mark;
use crate::names::stands_name;
use crate::terminals::NameAt;
use crate::token::Token;
use crate::words::{stands_word_in_full, word};
use c_tree::{Dialect, Named, Statement, TypeName};
use hw_text::{Cursor, Placed, ReadFault};
use std::alloc::Global;

/// Reads a call that stands alone, whose name was passed.
fn call_alone_behind(
    alloc: Global,
    tokens: &mut Cursor<'_, Placed<Token>>,
    dialect: Dialect,
    name: Named,
) -> Result<Statement, ReadFault>
    ensures { Reads (SpellsCallAlone dialect) Anything (name_token name ∷ tokens.old) tokens.new result }
{
    let call = call_behind(alloc, tokens, dialect, name)?;
    sign(tokens, Mark::Semicolon)?;
    Ok(Statement::Call(call))
}

/// Reads `break ;`.
fn break_alone(tokens: &mut Cursor<'_, Placed<Token>>) -> Result<Statement, ReadFault>
    ensures { Reads SpellsBreak Anything tokens.old tokens.new result }
{
    word(tokens, Keyword::Break)?;
    sign(tokens, Mark::Semicolon)?;
    Ok(Statement::Break)
}

/// Reads a statement that begins with a name: the token behind it tells which.
fn named(
    alloc: Global,
    tokens: &mut Cursor<'_, Placed<Token>>,
    dialect: Dialect,
) -> Result<Statement, ReadFault>
    requires { begins is_name tokens.old ≡ true }
    ensures { Reads (SpellsPlain dialect) Anything tokens.old tokens.new result }
{
    let name = read_one::<NameAt>(alloc, tokens)?;
    if stands_name(tokens) {
        return local_behind(alloc, tokens, dialect, TypeName::Defined(name));
    }
    if stands(tokens, Mark::OpenParenthesis) {
        return call_alone_behind(alloc, tokens, dialect, name);
    }
    assignment_behind(alloc, tokens, dialect, name)
}

/// Reads a statement without a block.
pub fn plain(
    alloc: Global,
    tokens: &mut Cursor<'_, Placed<Token>>,
    dialect: Dialect,
) -> Result<Statement, ReadFault>
    ensures { Reads (SpellsPlain dialect) Anything tokens.old tokens.new result }
{
    if stands_name(tokens) {
        return named(alloc, tokens, dialect);
    }
    if stands_plain_type(tokens) {
        return local(alloc, tokens, dialect);
    }
    if stands_word_in_full(tokens, dialect, Keyword::Break) {
        return break_alone(tokens);
    }
    assignment(alloc, tokens, dialect)
}
