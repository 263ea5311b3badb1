//! Reading the file of a model.

ghost use Rattle.std.specs.Prelude.{◌≡◌, List, ℕ, Some, true, IfOk};
ghost use Rattle.hamr_cli.specs.ModelFile.{IsModelText};
ghost use Rattle.hamr_cli.specs.Inner.{FileIs, ParsedAs, IsOnlyRead, OnStopped, IsUnread};

use crate::files::{Stop, read_file};
use aadl_parse::parse;
use aadl_tree::Package;
use hw_io::Store;
use hw_text::{Fault, NoMemory, Refusal};
use std::alloc::Global;

/// What a text is that was to be a model.
#[derive(Debug, Drop)]
pub enum ModelText {
    Package(Package),
    Refused(Refusal),
}

/// What the text in a file is.
pub fn read_model<S: Store>(alloc: Global, store: &mut S, model: &str) -> Result<ModelText, Stop>
    ensures text { IfOk result (λ text. (S.means store.old).tells ≡ true → FileIs (S.means store.old).held model.now text) }
    ensures stopped { OnStopped result (λ report. IsUnread (S.means store.old) (S.means store.new) model.now report) }
    ensures kept { IsOnlyRead (S.means store.old) (S.means store.new) }
{
    let bytes = read_file(alloc, store, model)?;
    Ok(model_text(alloc, bytes.rows())?)
}

/// What a text is.
fn model_text(alloc: Global, bytes: &[u8]) -> Result<ModelText, NoMemory>
    ensures { IfOk result (λ text. IsModelText bytes.now text) }
{
    match parse(alloc, bytes) {
        Ok(package) => Ok(ModelText::Package(package)),
        Err(fault) => refused(fault),
    }
}

fn refused(fault: Fault) -> Result<ModelText, NoMemory>
    ensures { ParsedAs fault result }
{
    match fault {
        Fault::Refused(refusal) => Ok(ModelText::Refused(refusal)),
        Fault::NoMemory => Err(NoMemory),
    }
}
