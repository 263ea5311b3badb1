//! What the commands print, from the files that the words name.

ghost use Rattle.std.specs.Prelude.{◌≡◌, true, IfOk};
ghost use Rattle.hamr_cli.specs.Answer.{IsDue};
ghost use Rattle.hamr_cli.specs.Cause.{report_of, words};
ghost use Rattle.hamr_cli.specs.Command.{judge as asked_judge, tidy as asked_tidy};
ghost use Rattle.hamr_cli.specs.Judge.{JudgeReports};
ghost use Rattle.hamr_cli.specs.Files.{HoldsTheSame};
ghost use Rattle.hamr_cli.specs.Package.{IsThin};
ghost use Rattle.hamr_cli.specs.Status.{IsOfContent};
ghost use Rattle.hamr_cli.specs.Inner.{OnStopped, OnReport, IsUnread};

use crate::Report;
use crate::cause::{refused_text, refused_words};
use crate::files::Stop;
use crate::judge::judge;
use crate::model_file::{ModelText, read_model};
use crate::tidy::tidy;
use aadl_tree::Package;
use hw_io::Store;
use std::alloc::Global;

/// Of words that are no row of the table of commands.
pub fn run_no_row(alloc: Global) -> Result<Report, Stop>
    ensures { OnReport result (λ report. report ≡ report_of words) }
{
    Ok(refused_words(alloc)?)
}

/// `judge MODEL TRACE`. The trace is read only once the model is.
pub fn run_judge<S: Store>(
    alloc: Global,
    store: &mut S,
    model: &str,
    trace: &str,
) -> Result<Report, Stop>
    ensures due { OnReport result (λ report. IsDue (asked_judge model.now trace.now) (S.means store.old) (S.means store.new) report) }
    ensures kept { HoldsTheSame (S.means store.old) (S.means store.new) }
{
    match read_model(alloc, store, model)? {
        ModelText::Package(tree) => judge_model(alloc, store, &tree, model, trace),
        ModelText::Refused(refusal) => Ok(refused_text(alloc, model, &refusal)?),
    }
}

/// The report on a model and the trace in a file.
fn judge_model<S: Store>(
    alloc: Global,
    store: &mut S,
    tree: &Package,
    model: &str,
    trace: &str,
) -> Result<Report, Stop>
    ensures content { IfOk result (λ report. IsOfContent report.status) }
    ensures given { IfOk result (λ report. (S.means store.old).tells ≡ true → JudgeReports (S.means store.old).held model.now trace.now tree.now report) }
    ensures stopped { OnStopped result (λ report. IsUnread (S.means store.old) (S.means store.new) trace.now report) }
    ensures thin { OnStopped result (λ report. IsThin tree.now) }
    ensures kept { HoldsTheSame (S.means store.old) (S.means store.new) }
{
    let found = judge(alloc, store, tree, trace)?;
    Ok(found.report(alloc, model, trace)?)
}

/// `tidy MODEL`.
pub fn run_tidy<S: Store>(alloc: Global, store: &mut S, model: &str) -> Result<Report, Stop>
    ensures due { OnReport result (λ report. IsDue (asked_tidy model.now) (S.means store.old) (S.means store.new) report) }
    ensures kept { HoldsTheSame (S.means store.old) (S.means store.new) }
{
    match read_model(alloc, store, model)? {
        ModelText::Package(tree) => Ok(tidy(alloc, &tree)?),
        ModelText::Refused(refusal) => Ok(refused_text(alloc, model, &refusal)?),
    }
}
