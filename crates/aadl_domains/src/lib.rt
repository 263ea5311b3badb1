//! The components of an instance that a model's root holds: its domains in their order.
#![tactic(auto)]

mod counts;
mod laws;
mod listing;
mod marks;
mod ports;
mod rooting;
mod sought;
mod spans;
mod walk;

pub use laws::{components_are_listed, listed_are_components};
pub use ports::{rows_of, thread_of};
pub use rooting::roots;
pub use sought::Sought;
pub use walk::{Found, Path, domains, listed};
