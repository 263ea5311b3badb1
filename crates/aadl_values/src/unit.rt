//! Units of time.

ghost use Rattle.std.specs.Prelude.{◌≡◌, ◌≤◌, ◌<◌};
ghost use Rattle.aadl_values.specs.Spellings.{unit_word};
ghost use Rattle.aadl_values.specs.Times.{unit_named, picoseconds};

use crate::spelled::{Spelled, spelled_among};

/// A unit of times (SAE AS5506, Time_Units).
#[derive(Clone, Copy, Debug, PartialEq, Eq)]
pub enum TimeUnit {
    Picoseconds,
    Nanoseconds,
    Microseconds,
    Milliseconds,
    Seconds,
    Minutes,
    Hours,
}

static UNITS: [TimeUnit; 7] = [
    TimeUnit::Picoseconds,
    TimeUnit::Nanoseconds,
    TimeUnit::Microseconds,
    TimeUnit::Milliseconds,
    TimeUnit::Seconds,
    TimeUnit::Minutes,
    TimeUnit::Hours,
];

#[tactic(auto, unfolding(crate::specs::Spellings::unit_word))]
impl Spelled for TimeUnit {
    ghost spelling_of = { unit_word };

    fn spelling(self) -> &'static str {
        match self {
            TimeUnit::Picoseconds => "ps",
            TimeUnit::Nanoseconds => "ns",
            TimeUnit::Microseconds => "us",
            TimeUnit::Milliseconds => "ms",
            TimeUnit::Seconds => "sec",
            TimeUnit::Minutes => "min",
            TimeUnit::Hours => "hr",
        }
    }
}

/// The unit of this name, which is in lower case.
pub fn unit_named(name: &[u8]) -> Option<TimeUnit>
    ensures { result ≡ unit_named name.now }
{
    spelled_among(&UNITS, name)
}

impl TimeUnit {
    pub fn picoseconds(self) -> u128
        ensures exact { result ≡ picoseconds self }
        ensures bound { result ≤ 3600000000000000 }
    {
        match self {
            TimeUnit::Picoseconds => 1,
            TimeUnit::Nanoseconds => 1_000,
            TimeUnit::Microseconds => 1_000_000,
            TimeUnit::Milliseconds => 1_000_000_000,
            TimeUnit::Seconds => 1_000_000_000_000,
            TimeUnit::Minutes => 60_000_000_000_000,
            TimeUnit::Hours => 3_600_000_000_000_000,
        }
    }
}
