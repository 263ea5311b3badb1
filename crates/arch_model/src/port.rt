//! A port of a domain.

use crate::{Kind, PdId};
use hw_text::{Name, Rows};

/// A port, through which a domain sends or receives (SAE AS5506, ports).
#[derive(Debug, Drop)]
pub struct Port {
    pub owner: PdId,
    pub name: Name,
    /// Whether the domain sends through it.
    pub outward: bool,
    pub kind: Kind,
    /// The place of its type among the architecture's types.
    pub ty: u32,
    /// How many items wait at an in port (Queue_Size); 1 for a data port.
    pub size: u32,
    /// Whether a dispatch takes all waiting items (Dequeue_Protocol AllItems) or one.
    pub all: bool,
}

/// The ports of an architecture, by domain and then in the order of their declaration.
pub type PortList = Rows<Port>;
