//! The answer of most calls that do not succeed.

use crate::{NoMemory, Refusal};

/// Why a call that reads a text gave nothing.
#[derive(Debug, Drop)]
pub enum Fault {
    /// The text is not accepted, for this cause.
    Refused(Refusal),
    /// There was no memory.
    NoMemory,
}

impl From<NoMemory> for Fault {
    ghost use Rattle.std.specs.Prelude.{◌≡◌};
    ghost use Rattle.hw_text.specs.declared.fault.Fault.TheVariants.{NoMemory as fault_no_memory};

    ghost from_gives = { λ _ fault. fault ≡ fault_no_memory };

    fn from(_: NoMemory) -> Self {
        Fault::NoMemory
    }
}
