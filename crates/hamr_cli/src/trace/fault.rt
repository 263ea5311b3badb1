//! Why a trace was not read.

use hw_text::NoMemory;

/// Why a line was not read.
#[derive(Clone, Copy, Debug, PartialEq, Eq)]
pub enum LineFault {
    /// No line of the form stands in front.
    BadLine,
    NoMemory,
}

/// Why a trace was not read.
#[derive(Clone, Copy, Debug, PartialEq, Eq)]
pub enum TraceFault {
    /// The number of the first line that is not of the form, from 1; 0 where the trace is above
    /// its limit.
    BadLine(u64),
    NoMemory,
}

impl From<NoMemory> for LineFault {
    ghost use Rattle.std.specs.Prelude.{◌≡◌};
    ghost use Rattle.hamr_cli.specs.declared.trace.fault.LineFault.TheVariants.{NoMemory as line_no_memory};

    ghost from_gives = { λ _ fault. fault ≡ line_no_memory };

    fn from(_: NoMemory) -> Self {
        LineFault::NoMemory
    }
}

impl From<NoMemory> for TraceFault {
    ghost use Rattle.std.specs.Prelude.{◌≡◌};
    ghost use Rattle.hamr_cli.specs.declared.trace.fault.TraceFault.TheVariants.{NoMemory as trace_no_memory};

    ghost from_gives = { λ _ fault. fault ≡ trace_no_memory };

    fn from(_: NoMemory) -> Self {
        TraceFault::NoMemory
    }
}
