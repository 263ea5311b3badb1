//! What an architecture is made of.

use crate::{LinkList, OriginList, PdList, PortList, TypeRowList};

/// The tables of an architecture, before they are known to fit one another.
#[derive(Debug, Drop)]
pub struct ArchParts {
    pub pds: PdList,
    pub ports: PortList,
    pub links: LinkList,
    pub types: TypeRowList,
    /// The frame period, in picoseconds.
    pub frame: u64,
    pub origins: OriginList,
}
