//! Conditions of a model on its names and on its structure: each tells the first refusal of its kind.
#![tactic(auto)]

mod classes;
mod destination;
mod duplicates;
mod ends;
mod fan_ins;
mod kinds;
mod lookups;
mod mention;
mod mentions;
mod missing;
mod parents;
mod repeats;
mod rooting;
mod telling;
mod threads;
mod unknown;
mod values;
mod widths;

pub use duplicates::first_duplicate;
pub use ends::first_wrong_end;
pub use fan_ins::first_fan_in;
pub use kinds::first_kind_difference;
pub use parents::first_wrong_parent;
pub use rooting::first_wrong_root;
pub use unknown::first_unknown;
pub use widths::first_wide;
