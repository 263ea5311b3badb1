//! Loops of references: which row of a graph is the first that a path leads back to.
#![tactic(auto)]

mod first;
mod pass;
mod reached;
mod rises;
mod search;

pub use first::first_on_loop;
