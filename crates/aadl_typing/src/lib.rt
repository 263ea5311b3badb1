//! Conditions of a model on its data: fields named as words of C, payloads of too many scalars, what
//! contains itself, connections whose ends carry different types, and data that have no layout.
#![tactic(auto)]

mod c_words;
mod containing;
mod data_graph;
mod differing;
mod edges;
mod ends;
mod field_names;
mod flaws;
mod made_of;
mod marks;
mod numbers;
mod payload_widths;
mod refusals;
mod spreading;
mod standing;
mod unlaid;

pub use containing::first_containing_itself;
pub use differing::first_type_difference;
pub use field_names::first_c_word;
pub use payload_widths::first_wide_payload;
pub use unlaid::first_without_layout;
