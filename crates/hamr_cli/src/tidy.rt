//! The command `tidy MODEL`.

ghost use Rattle.std.specs.Prelude.{IfOk};
ghost use Rattle.hamr_cli.specs.Tidy.{IsTidied};

use crate::{Report, Status};
use aadl_tree::{Package, print};
use hw_text::NoMemory;
use std::alloc::Global;

/// The canonical text of a model. Of that text, within the limits of models, the same is printed.
pub fn tidy(alloc: Global, tree: &Package) -> Result<Report, NoMemory>
    ensures { IfOk result (λ report. IsTidied tree.now report) }
{
    Ok(Report {
        text: print(alloc, tree)?,
        status: Status::Done,
    })
}
