//! The timing, the names and the number of the components of an instance, and the conditions on these.
#![tactic(auto)]

mod bounds;
mod clashes;
mod depth;
mod firsts;
mod frame;
mod instance;
mod leading;
mod limits;
mod naming;
mod pruning;
mod threads;
mod timing;
mod untimed;

pub use instance::Instance;
pub use timing::{Timing, timing_of};
