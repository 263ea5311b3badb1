//! Ranges of times.

/// All times from the first to the second, in picoseconds; the first is not above the second.
#[derive(Clone, Copy, Debug, PartialEq, Eq)]
pub struct TimeRange {
    pub low: u64,
    pub high: u64,
}
