//! The numbers that stand for domains and ports.

use hw_text::Rows;

/// A domain, by its place among the domains of its architecture, from 0.
#[derive(Clone, Copy, Debug, PartialEq, Eq, PartialOrd, Ord)]
pub struct PdId(pub u32);

/// A port, by its place among the ports of its architecture, from 0.
#[derive(Clone, Copy, Debug, PartialEq, Eq, PartialOrd, Ord)]
pub struct PortId(pub u32);

/// Ports, in an order of their own.
pub type PortIdList = Rows<PortId>;
