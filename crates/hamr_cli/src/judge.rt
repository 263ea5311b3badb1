//! The command `judge MODEL TRACE`, once the model is read.

ghost use Rattle.std.specs.Prelude.{◌≡◌, List, ℕ, Some, true, IfOk};
ghost use Rattle.hamr_cli.specs.Judge.{IsJudged, IsJudgedFile, IsJudgedTrace};
ghost use Rattle.hamr_cli.specs.Inner.{UnreadAs, IsOnlyRead, OnStopped, IsUnread};
ghost use Rattle.hamr_cli.specs.Package.{IsThin};

use crate::files::{Stop, read_file};
use crate::judgement::Judgement;
use crate::package::read_package;
use crate::trace::{TraceFault, read_trace};
use crate::verdict::verdict;
use aadl_tree::Package;
use arch_model::Arch;
use hw_io::Store;
use hw_text::NoMemory;
use std::alloc::Global;

/// What a model and the trace in a file are. The trace is read only where the model is one that
/// this version judges by.
pub fn judge<S: Store>(
    alloc: Global,
    store: &mut S,
    tree: &Package,
    trace: &str,
) -> Result<Judgement, Stop>
    ensures judged { IfOk result (λ found. (S.means store.old).tells ≡ true → IsJudged (S.means store.old).held tree.now trace.now found) }
    ensures stopped { OnStopped result (λ report. IsUnread (S.means store.old) (S.means store.new) trace.now report) }
    ensures thin { OnStopped result (λ report. IsThin tree.now) }
    ensures kept { IsOnlyRead (S.means store.old) (S.means store.new) }
{
    match read_package(alloc, tree)? {
        Some(arch) => judge_by(alloc, store, &arch, trace),
        None => Ok(Judgement::NotBuilt),
    }
}

/// What a trace in a file is to an architecture.
fn judge_by<S: Store>(
    alloc: Global,
    store: &mut S,
    arch: &Arch,
    trace: &str,
) -> Result<Judgement, Stop>
    ensures judged { IfOk result (λ found. (S.means store.old).tells ≡ true → IsJudgedFile (S.means store.old).held arch.now trace.now found) }
    ensures stopped { OnStopped result (λ report. IsUnread (S.means store.old) (S.means store.new) trace.now report) }
    ensures kept { IsOnlyRead (S.means store.old) (S.means store.new) }
{
    let bytes = read_file(alloc, store, trace)?;
    Ok(judge_trace(alloc, arch, bytes.rows())?)
}

/// What a trace is to an architecture.
fn judge_trace(alloc: Global, arch: &Arch, bytes: &[u8]) -> Result<Judgement, NoMemory>
    ensures { IfOk result (λ found. IsJudgedTrace arch.now bytes.now found) }
{
    match read_trace(alloc, bytes, arch) {
        Ok(lines) => verdict(alloc, arch, lines.rows()),
        Err(fault) => unread(fault),
    }
}

/// What a trace is that was not read.
fn unread(fault: TraceFault) -> Result<Judgement, NoMemory>
    ensures { UnreadAs fault result }
{
    match fault {
        TraceFault::BadLine(number) => Ok(Judgement::BadLine(number)),
        TraceFault::NoMemory => Err(NoMemory),
    }
}
