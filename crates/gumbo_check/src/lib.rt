//! Contracts as their domains keep them: the names of their clauses, and their state variables.
#![tactic(auto)]

mod clause;
mod contract;
mod contract_list;
mod section;
mod state_var;

pub use clause::Clause;
pub use contract::CheckedContract;
pub use contract_list::ContractList;
pub use section::Section;
pub use state_var::StateVar;
