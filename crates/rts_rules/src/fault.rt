//! Why a step of the services was not taken.

use crate::Rule;
use hw_text::NoMemory;

/// Why the state stays as it was.
#[derive(Clone, Copy, Debug, PartialEq, Eq)]
pub enum StepFault {
    /// No rule allows the event; the rule that speaks of such events.
    Illegal(Rule),
    NoMemory,
}

impl From<NoMemory> for StepFault {
    ghost use Rattle.std.specs.Prelude.{◌≡◌};
    ghost use Rattle.rts_rules.specs.declared.fault.StepFault.TheVariants.{NoMemory as fault_no_memory};

    ghost from_gives = { λ _ fault. fault ≡ fault_no_memory };

    fn from(_: NoMemory) -> Self {
        StepFault::NoMemory
    }
}
