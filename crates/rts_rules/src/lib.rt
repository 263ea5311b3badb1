//! The run-time services: which event may come next, and what it leaves.
#![tactic(auto)]

mod event;
mod fault;
mod item;
mod order;
mod phase;
mod ports;
mod queue;
mod rule;
mod slot;
mod slots;
mod state;
mod thread;
mod values;

pub use event::{Event, What};
pub use fault::StepFault;
pub use rule::Rule;
pub use state::ServiceState;
