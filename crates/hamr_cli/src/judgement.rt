//! What the judge finds.

ghost use Rattle.std.specs.Prelude.{◌≡◌, IfOk};
ghost use Rattle.hamr_cli.specs.Judge.{legal_report, illegal_report};

use crate::cause::refused_text;
use crate::{Report, Status};
use hw_text::{Code, NoMemory, Refusal, TextBuf};
use rts_rules::Rule;
use std::alloc::Global;

/// What a model and a trace are to each other.
#[derive(Clone, Copy, Debug, PartialEq, Eq)]
pub enum Judgement {
    /// The model is none of those that this version reads.
    NotBuilt,
    /// The first line of the trace that is not of the form, from 1; 0 where the trace is too long.
    BadLine(u64),
    /// The trace is a run of the services.
    Legal,
    /// The first line of the trace that no rule allows, from 1, and the rule of its event.
    Illegal(u64, Rule),
}

impl Judgement {
    ghost use Rattle.hamr_cli.specs.Judge.{report_of_judgement};

    /// The report on it, the files being named so.
    pub fn report(self, alloc: Global, model: &str, trace: &str) -> Result<Report, NoMemory>
        ensures { IfOk result (λ report. report ≡ report_of_judgement model.now trace.now self) }
    {
        match self {
            Judgement::NotBuilt => refused_text(alloc, model, &Refusal::not_built(alloc)),
            Judgement::BadLine(number) => refused_text(
                alloc,
                trace,
                &Refusal::numbered(alloc, Code::TraceBadLine, number),
            ),
            Judgement::Legal => legal(alloc),
            Judgement::Illegal(number, rule) => illegal(alloc, number, rule),
        }
    }
}

fn legal(alloc: Global) -> Result<Report, NoMemory>
    ensures { IfOk result (λ report. report ≡ legal_report) }
{
    let mut text = TextBuf::new(alloc);
    text.word(b"legal")?;
    text.newline()?;
    Ok(Report {
        text,
        status: Status::Done,
    })
}

fn illegal(alloc: Global, number: u64, rule: Rule) -> Result<Report, NoMemory>
    ensures { IfOk result (λ report. report ≡ illegal_report number rule) }
{
    let mut text = TextBuf::new(alloc);
    text.word(b"illegal ")?;
    text.number(i128::from(number))?;
    text.word(b" ")?;
    text.word(rule.word().as_bytes())?;
    text.newline()?;
    Ok(Report {
        text,
        status: Status::SomeFalse,
    })
}
