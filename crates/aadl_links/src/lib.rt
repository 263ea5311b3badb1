//! The links of an instance: from which port of a thread or device connections lead to a port, end to end.
#![tactic(auto)]

mod backward;
mod source;
mod wiring;

pub use source::Source;
pub use wiring::Wiring;
