//! Printing statements.

ghost use Rattle.std.specs.Prelude.{◌≡◌, ◌++◌, [], map, OnOk, true};
ghost use Rattle.std.specs.List.{flat_map, list_all};
ghost use Rattle.c_tree.specs.Statements.{deeper, line, all_lines, block_text, forever_text, else_text, otherwise_text, statement_text, branch_text};

use crate::print_head::{deeper, print_count, print_forever};
use crate::statement::{Branch, Otherwise, Statement};
use hw_text::{NoMemory, TextBuf};
use std::alloc::Global;

impl Statement {
    /// Appends the statement from its first token to its last; its further lines have this margin.
    #[cycle(statements)]
    fn print(&self, alloc: Global, out: &mut TextBuf, margin: &[u8]) -> Result<(), NoMemory>
        ensures { OnOk result (out.new ≡ out.old ++ statement_text self.now margin.now) }
    {
        match self {
            Statement::Local { class, name, value } => {
                class.print(out)?;
                out.word(b" ")?;
                out.word(name.name.rows())?;
                value.print(out)?;
                out.word(b";")
            }
            Statement::Assign { target, value } => {
                target.print(out)?;
                out.word(b" = ")?;
                value.print(out)?;
                out.word(b";")
            }
            Statement::Call(call) => {
                call.print(out)?;
                out.word(b";")
            }
            Statement::If {
                first,
                others,
                otherwise,
            } => {
                first.print(alloc, out, margin)?;
                print_others(alloc, out, others.rows(), margin)?;
                otherwise.print(alloc, out, margin)
            }
            Statement::Count {
                class,
                name,
                from,
                below,
                body,
                ..
            } => {
                print_count(out, *class, name, from, below)?;
                print_block(alloc, out, body.rows(), margin)
            }
            Statement::Forever(body) => {
                print_forever(out)?;
                print_block(alloc, out, body.rows(), margin)
            }
            Statement::Break => out.word(b"break;"),
        }
    }
}

/// Appends the lines of all of these statements.
#[cycle(statements)]
pub fn print_all(
    alloc: Global,
    out: &mut TextBuf,
    statements: &[Statement],
    margin: &[u8],
) -> Result<(), NoMemory>
    ensures { OnOk result (out.new ≡ out.old ++ all_lines (map statement_text statements.now) margin.now) }
{
    for statement in statements {
        out.word(margin)?;
        statement.print(alloc, out, margin)?;
        out.newline()?;
    }
    Ok(())
}

/// Appends a block, from its `{` on, whose closing line has this margin.
#[cycle(statements)]
fn print_block(
    alloc: Global,
    out: &mut TextBuf,
    body: &[Statement],
    margin: &[u8],
) -> Result<(), NoMemory>
    ensures { OnOk result (out.new ≡ out.old ++ block_text (map statement_text body.now) margin.now) }
{
    out.word(b" {")?;
    out.newline()?;
    let inner = deeper(alloc, margin)?;
    print_all(alloc, out, body, inner.rows())?;
    out.word(margin)?;
    out.word(b"}")
}

impl Branch {
    #[cycle(statements)]
    fn print(&self, alloc: Global, out: &mut TextBuf, margin: &[u8]) -> Result<(), NoMemory>
        ensures { OnOk result (out.new ≡ out.old ++ branch_text self.now margin.now) }
    {
        out.word(b"if (")?;
        self.condition.print(out)?;
        out.word(b")")?;
        print_block(alloc, out, self.body.rows(), margin)
    }
}

/// Appends each `else if`.
#[cycle(statements)]
fn print_others(
    alloc: Global,
    out: &mut TextBuf,
    branches: &[Branch],
    margin: &[u8],
) -> Result<(), NoMemory>
    ensures { OnOk result (out.new ≡ out.old ++ flat_map (else_text margin.now) (map branch_text branches.now)) }
{
    for branch in branches {
        out.word(b" else ")?;
        branch.print(alloc, out, margin)?;
    }
    Ok(())
}

impl Otherwise {
    #[cycle(statements)]
    fn print(&self, alloc: Global, out: &mut TextBuf, margin: &[u8]) -> Result<(), NoMemory>
        ensures { OnOk result (out.new ≡ out.old ++ otherwise_text self.now margin.now) }
    {
        match self {
            Otherwise::Block(body) => {
                out.word(b" else")?;
                print_block(alloc, out, body.rows(), margin)
            }
            Otherwise::Nothing => Ok(()),
        }
    }
}
