//! Where a thread is in its round.

/// The phase of a thread (this project's own, after the run-time services of AADL).
#[derive(Clone, Copy, PartialEq, Eq)]
pub enum Phase {
    /// It has not been initialised.
    Starting,
    /// It waits for its next round.
    Idle,
    /// Its next receive is the one of this number, from 0.
    Receiving(usize),
    /// Its user code runs.
    Computing,
    /// What it put goes out.
    Sending,
}
