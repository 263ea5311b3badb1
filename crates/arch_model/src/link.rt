//! A connection instance.

use crate::PortId;
use hw_text::Rows;

/// A connection from end to end: what leaves one port arrives at the other
/// (SAE AS5506, semantic connections).
#[derive(Clone, Copy, Debug, PartialEq, Eq)]
pub struct Link {
    pub from: PortId,
    pub to: PortId,
}

/// The links of an architecture, by the port that they leave and then by the one where they end.
pub type LinkList = Rows<Link>;
