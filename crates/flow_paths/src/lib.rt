//! From which domains something can reach a domain, along the links.
#![tactic(auto)]

mod pd_set;
mod senders;

pub use pd_set::PdSet;
pub use senders::sources;
