//! Whether the lines of a trace are a run of the services.

ghost use Rattle.std.specs.Prelude.{IfOk, All};
ghost use Rattle.hamr_cli.specs.Judge.{events_of, IsVerdict};
ghost use Rattle.hamr_cli.specs.Inner.{EndsAs};
ghost use Rattle.rts_rules.specs.Step.{IsEventOf};

use crate::judgement::Judgement;
use crate::trace::Line;
use arch_model::Arch;
use hw_text::NoMemory;
use rts_rules::{ServiceState, StepFault};
use std::alloc::Global;

/// What the rules say of the lines: legal, or the first line that no rule allows.
pub fn verdict(alloc: Global, arch: &Arch, lines: &[Line]) -> Result<Judgement, NoMemory>
    requires { All (λ line. IsEventOf arch.now line.event) lines.now }
    ensures { IfOk result (λ found. IsVerdict arch.now (events_of lines.now) found) }
{
    let mut state = ServiceState::start(alloc, arch)?;
    let mut number = 0;
    for line in lines {
        number += 1;
        match state.step(alloc, arch, &line.event) {
            Ok(()) => {}
            Err(fault) => return ended(fault, number),
        }
    }
    Ok(Judgement::Legal)
}

/// What a step that was not taken makes of the trace, at the line of this number.
fn ended(fault: StepFault, number: u64) -> Result<Judgement, NoMemory>
    ensures { EndsAs fault number result }
{
    match fault {
        StepFault::Illegal(rule) => Ok(Judgement::Illegal(number, rule)),
        StepFault::NoMemory => Err(NoMemory),
    }
}
