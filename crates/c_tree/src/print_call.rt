//! Printing calls.

ghost use Rattle.std.specs.Prelude.{◌≡◌, ◌++◌, map, OnOk, true};
ghost use Rattle.std.specs.List.{flat_map, list_all};
ghost use Rattle.c_tree.specs.Printing.{behind_comma, with_commas};
ghost use Rattle.c_tree.specs.Expressions.{argument_text, call_text, right_text};

use crate::expression::{Argument, Call, RightSide};
use crate::print_expression::Position;
use hw_text::{NoMemory, TextBuf};

impl RightSide {
    pub fn print(&self, out: &mut TextBuf) -> Result<(), NoMemory>
        ensures { OnOk result (out.new ≡ out.old ++ right_text self.now) }
    {
        match self {
            RightSide::Call(call) => call.print(out),
            RightSide::Value(value) => value.print(out, Position::Whole),
        }
    }
}

impl Call {
    pub fn print(&self, out: &mut TextBuf) -> Result<(), NoMemory>
        ensures { OnOk result (out.new ≡ out.old ++ call_text self.now) }
    {
        out.word(self.name.name.rows())?;
        out.word(b"(")?;
        print_arguments(out, self.arguments.rows())?;
        out.word(b")")
    }
}

fn print_arguments(out: &mut TextBuf, arguments: &[Argument]) -> Result<(), NoMemory>
    ensures { OnOk result (out.new ≡ out.old ++ with_commas (map argument_text arguments.now)) }
{
    let Some((first, others)) = arguments.split_first() else {
        return Ok(());
    };
    first.print(out)?;
    for argument in others {
        out.word(b", ")?;
        argument.print(out)?;
    }
    Ok(())
}

impl Argument {
    fn print(&self, out: &mut TextBuf) -> Result<(), NoMemory>
        ensures { OnOk result (out.new ≡ out.old ++ argument_text self.now) }
    {
        match self {
            Argument::Address(_, named) => {
                out.word(b"&")?;
                out.word(named.name.rows())
            }
            Argument::Value(value) => value.print(out, Position::Whole),
        }
    }
}
