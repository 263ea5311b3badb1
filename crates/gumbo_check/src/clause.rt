//! The clauses of a contract.

use crate::Section;
use arch_model::PortId;
use hw_text::Name;

/// A clause: its name, the section in which it stands, and the port of which it speaks.
#[derive(Debug, Drop)]
pub struct Clause {
    pub name: Name,
    pub section: Section,
    /// The port of an integration or handler clause, and none in the others.
    pub port: Option<PortId>,
}
