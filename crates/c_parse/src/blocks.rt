//! The readers of statements and of their blocks.

ghost use Rattle.hw_text.specs.Reading.{Reads, Anything, BeginsWith};
ghost use Rattle.c_parse.specs.StatementGrammar.{SpellsStatement, SpellsStatements, SpellsBlock, SpellsBranch, SpellsElse, SpellsChoice, SpellsFor, NoElse, ends_body};

use crate::body_ends::stands_end;
use crate::counting::{count, forever_head};
use crate::keyword::Keyword;
use crate::leaf::{sign, stands_in_full};
use crate::links::goes_on;
use crate::local_values::condition;
use crate::mark::Mark;
use crate::plain::plain;
use crate::token::Token;
use crate::words::{stands_word, word};
use c_tree::{Branch, Dialect, Otherwise, Statement};
use hw_text::{Cursor, Placed, ReadFault, Rows};
use std::alloc::Global;

/// Reads a statement.
#[cycle(statements)]
pub fn statement(
    alloc: Global,
    tokens: &mut Cursor<'_, Placed<Token>>,
    dialect: Dialect,
) -> Result<Statement, ReadFault>
    ensures { Reads (SpellsStatement dialect) NoElse tokens.old tokens.new result }
{
    if stands_word(tokens, Keyword::If) {
        return choice(alloc, tokens, dialect);
    }
    if stands_word(tokens, Keyword::For) {
        return repetition(alloc, tokens, dialect);
    }
    plain(alloc, tokens, dialect)
}

/// Reads statements up to the end of their block.
#[cycle(statements)]
pub fn statements(
    alloc: Global,
    tokens: &mut Cursor<'_, Placed<Token>>,
    dialect: Dialect,
) -> Result<Rows<Statement>, ReadFault>
    ensures { Reads (SpellsStatements dialect) (BeginsWith ends_body) tokens.old tokens.new result }
{
    let mut all = Rows::new(alloc);
    'all: while !stands_end(tokens) {
        let next = statement(alloc, tokens, dialect)?;
        all.push(next)?;
    }
    Ok(all)
}

/// Reads a block.
#[cycle(statements)]
pub fn block(
    alloc: Global,
    tokens: &mut Cursor<'_, Placed<Token>>,
    dialect: Dialect,
) -> Result<Rows<Statement>, ReadFault>
    ensures { Reads (SpellsBlock dialect) Anything tokens.old tokens.new result }
{
    sign(tokens, Mark::OpenBrace)?;
    let body = statements(alloc, tokens, dialect)?;
    sign(tokens, Mark::CloseBrace)?;
    Ok(body)
}

/// Reads a condition, and what is done where it holds.
#[cycle(statements)]
fn branch(
    alloc: Global,
    tokens: &mut Cursor<'_, Placed<Token>>,
    dialect: Dialect,
) -> Result<Branch, ReadFault>
    ensures { Reads (SpellsBranch dialect) Anything tokens.old tokens.new result }
{
    word(tokens, Keyword::If)?;
    let condition = condition(alloc, tokens, dialect)?;
    let body = block(alloc, tokens, dialect)?;
    Ok(Branch { condition, body })
}

/// Reads an `if` and what belongs to it.
#[cycle(statements)]
fn choice(
    alloc: Global,
    tokens: &mut Cursor<'_, Placed<Token>>,
    dialect: Dialect,
) -> Result<Statement, ReadFault>
    ensures { Reads (SpellsChoice dialect) NoElse tokens.old tokens.new result }
{
    let first = branch(alloc, tokens, dialect)?;
    let (others, otherwise) = otherwise(alloc, tokens, dialect)?;
    Ok(Statement::If {
        first,
        others,
        otherwise,
    })
}

/// Reads each `else if`, and the last `else`.
#[cycle(statements)]
fn otherwise(
    alloc: Global,
    tokens: &mut Cursor<'_, Placed<Token>>,
    dialect: Dialect,
) -> Result<(Rows<Branch>, Otherwise), ReadFault>
    ensures { Reads (SpellsElse dialect 0) NoElse tokens.old tokens.new result }
{
    let mut others = Rows::new(alloc);
    'others: while stands_word(tokens, Keyword::Else) {
        word(tokens, Keyword::Else)?;
        if !goes_on(tokens, dialect, others.len()) {
            let body = block(alloc, tokens, dialect)?;
            return Ok((others, Otherwise::Block(body)));
        }
        let next = branch(alloc, tokens, dialect)?;
        others.push(next)?;
    }
    Ok((others, Otherwise::Nothing))
}

/// Reads a loop.
#[cycle(statements)]
fn repetition(
    alloc: Global,
    tokens: &mut Cursor<'_, Placed<Token>>,
    dialect: Dialect,
) -> Result<Statement, ReadFault>
    ensures { Reads (SpellsFor dialect) Anything tokens.old tokens.new result }
{
    word(tokens, Keyword::For)?;
    sign(tokens, Mark::OpenParenthesis)?;
    if stands_in_full(tokens, dialect, Mark::Semicolon) {
        forever_head(tokens)?;
        let body = block(alloc, tokens, dialect)?;
        return Ok(Statement::Forever(body));
    }
    let (start, end) = count(alloc, tokens)?;
    let body = block(alloc, tokens, dialect)?;
    Ok(Statement::Count {
        class: start.class,
        name: start.name,
        from: start.from,
        place: end.place,
        below: end.below,
        body,
    })
}
