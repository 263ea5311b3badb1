//! Printing a report, once the whole text stands.

ghost use Rattle.std.specs.Prelude.{◌≡◌};
ghost use Rattle.hamr_cli.specs.Answer.{IsPrinted};
ghost use Rattle.hamr_cli.specs.Inner.{IsPrintedAs};

use crate::files::Stop;
use crate::{Report, Status};
use hw_io::{Sink, WriteFault, write_all};

/// Prints the report of a command, or that in its place.
pub fn print_result<O: Sink>(out: &mut O, given: Result<Report, Stop>) -> Status
    ensures { IsPrintedAs given (O.means out.old) (O.means out.new) result }
{
    match given {
        Ok(report) => print(out, &report),
        Err(Stop::Instead(report)) => print(out, &report),
        Err(Stop::NoMemory) => Status::NoMemory,
    }
}

/// Prints the whole text, or as much of it as the sink takes.
fn print<O: Sink>(out: &mut O, report: &Report) -> Status
    ensures { IsPrinted report.now (O.means out.old) (O.means out.new) result }
{
    match write_all(out, report.text.rows()) {
        Ok(()) => report.status,
        Err(WriteFault::Sink) => Status::WriteFault,
    }
}
