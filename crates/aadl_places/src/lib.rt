//! Where the associations of properties stand: what they speak of, which of them are in their place,
//! which values are refused, and what is ignored and noted; and which annexes are contracts.
#![tactic(auto)]

mod bad_values;
mod contract_annexes;
mod ignored;
mod long_queues;
mod note;
mod property_places;
mod site;

pub use bad_values::first_bad_property;
pub use contract_annexes::contract_annex;
pub use long_queues::first_long_queue;
pub use note::{Note, notes};
pub use property_places::{has_effect, is_place_of};
pub use site::sites;
