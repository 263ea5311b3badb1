//! The schedule, or why there is none.

ghost use Rattle.std.specs.Prelude.{◌≡◌, ◌<◌, IfOk};
ghost use Rattle.hw_text.specs.WholeTexts.{IfRefused};
ghost use Rattle.domain_sched.specs.Schedule.{Fits, AreEven, IsRefusedFor, overfull, not_multiple};
ghost use Rattle.domain_sched.specs.Slots.{slots_of};

use crate::FrameSlots;
use crate::multiples::first_uneven;
use crate::need::need;
use arch_model::{Arch, Origin};
use hw_text::{Code, Fault, NoMemory, Place, Refusal, TextBuf};
use std::alloc::Global;

/// The slots of the architecture's frames. `Overfull` comes where the domains need more than the
/// frame period, and else `PeriodNotMultiple` where a period is no multiple of it.
pub fn schedule(alloc: Global, arch: &Arch) -> Result<FrameSlots, Fault>
    ensures slots { IfOk result (λ frame. frame.slots ≡ slots_of arch.now.pds) }
    ensures fits { IfOk result (λ frame. Fits arch.now) }
    ensures even { IfOk result (λ frame. AreEven arch.now) }
    ensures refused { IfRefused result (IsRefusedFor arch.now) }
{
    let need = need(arch);
    if need > u128::from(arch.frame()) {
        return Err(Fault::Refused(overfull(alloc, need, arch.frame())));
    }
    if let Some(origin) = first_uneven(arch) {
        return Err(Fault::Refused(not_multiple(origin)?));
    }
    Ok(FrameSlots::of(alloc, arch)?)
}

/// The refusal of domains that need more than a frame has, in picoseconds.
fn overfull(alloc: Global, need: u128, have: u64) -> Refusal
    requires { need < 1180591620717411303424 }
    ensures { result ≡ overfull need have }
{
    Refusal {
        code: Code::ModelOverfull,
        place: Place::START,
        word: TextBuf::new(alloc),
        low: need as i128,
        high: i128::from(have),
        length: 0,
    }
}

/// The refusal of a thread type whose period is no multiple of the frame period.
fn not_multiple(origin: &Origin) -> Result<Refusal, NoMemory>
    ensures { IfOk result (λ r. r ≡ not_multiple origin.now) }
{
    Ok(Refusal {
        code: Code::ModelPeriodNotMultiple,
        place: origin.at,
        word: origin.thread.copy()?,
        low: 0,
        high: 0,
        length: 0,
    })
}
