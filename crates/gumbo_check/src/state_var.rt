//! The state variables of a contract.

use hw_text::Name;

/// A variable that a contract keeps from one dispatch to the next.
#[derive(Debug, Drop)]
pub struct StateVar {
    pub name: Name,
    /// The place of its type among the architecture's types.
    pub ty: u32,
}
