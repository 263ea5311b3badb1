//! What a port carries.

/// The category of a port (SAE AS5506, ports).
#[derive(Clone, Copy, Debug, PartialEq, Eq)]
pub enum Kind {
    /// A data port: the last value, without a queue.
    Sampled,
    /// An event port: arrivals without a value.
    Event,
    /// An event data port: queued values.
    EventItem,
}
