//! Printing what statements have beside blocks.

ghost use Rattle.std.specs.Prelude.{◌≡◌, ◌++◌, ◌&&◌, IfOk, OnOk, true};
ghost use Rattle.c_tree.specs.Statements.{deeper, local_text, count_start_text, count_end_text, count_text, forever_text};

use crate::integer_type::IntegerType;
use crate::named::{Named, SignedLiteral};
use crate::statement::LocalValue;
use hw_text::{NoMemory, TextBuf};
use std::alloc::Global;

/// Four spaces more.
pub fn deeper(alloc: Global, margin: &[u8]) -> Result<TextBuf, NoMemory>
    ensures { IfOk result (λ inner. inner ≡ deeper margin.now) }
{
    let mut inner = TextBuf::new(alloc);
    inner.word(margin)?;
    inner.word(b"    ")?;
    Ok(inner)
}

/// Appends the head of a loop over numbers.
pub fn print_count(
    out: &mut TextBuf,
    class: IntegerType,
    name: &Named,
    from: &SignedLiteral,
    below: &SignedLiteral,
) -> Result<(), NoMemory>
    ensures { OnOk result (out.new ≡ out.old ++ count_text class name.now from.now below.now) }
{
    print_count_start(out, class, name, from)?;
    print_count_end(out, name, below)
}

fn print_count_start(
    out: &mut TextBuf,
    class: IntegerType,
    name: &Named,
    from: &SignedLiteral,
) -> Result<(), NoMemory>
    ensures { OnOk result (out.new ≡ out.old ++ count_start_text class name.now from.now) }
{
    out.word(b"for (")?;
    out.word(class.spelling().as_bytes())?;
    out.word(b" ")?;
    out.word(name.name.rows())?;
    out.word(b" = ")?;
    from.print(out)?;
    out.word(b"; ")
}

fn print_count_end(out: &mut TextBuf, name: &Named, below: &SignedLiteral) -> Result<(), NoMemory>
    ensures { OnOk result (out.new ≡ out.old ++ count_end_text name.now below.now) }
{
    out.word(name.name.rows())?;
    out.word(b" < ")?;
    below.print(out)?;
    out.word(b"; ")?;
    out.word(name.name.rows())?;
    out.word(b"++)")
}

#[tactic(auto, unfolding(crate::specs::Statements::forever_text))]
pub fn print_forever(out: &mut TextBuf) -> Result<(), NoMemory>
    ensures { OnOk result (out.new ≡ out.old ++ forever_text) }
{
    out.word(b"for (;;)")
}

impl LocalValue {
    pub fn print(&self, out: &mut TextBuf) -> Result<(), NoMemory>
        ensures { OnOk result (out.new ≡ out.old ++ local_text self.now) }
    {
        match self {
            LocalValue::ZeroArray(length) => {
                out.word(b"[")?;
                out.word(length.numeral.rows())?;
                out.word(b"] = {0}")
            }
            LocalValue::Zero => out.word(b" = {0}"),
            LocalValue::Given(value) => {
                out.word(b" = ")?;
                value.print(out)
            }
        }
    }
}
