//! What a domain is.

/// Whether a domain is a device or runs a thread, and when the thread is dispatched
/// (SAE AS5506, Dispatch_Protocol).
#[derive(Clone, Copy, Debug, PartialEq, Eq)]
pub enum Role {
    /// A device: it acts once in each frame.
    Device,
    /// A thread that is dispatched once in each period.
    Periodic,
    /// A thread that is dispatched when something arrives.
    Sporadic,
}
