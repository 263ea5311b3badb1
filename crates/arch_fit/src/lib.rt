//! A test of the tables of an architecture, for who has them from elsewhere than from a model.
#![tactic(auto)]

mod domains;
mod fit;
mod links;
mod ports;

pub use fit::is_fit;
