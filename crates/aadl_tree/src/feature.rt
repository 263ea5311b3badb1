//! Features: the ports of a component.

use crate::association::Association;
use crate::class::Class;
use crate::names::Named;
use hw_text::Rows;

/// Which way a port carries, seen from its component.
#[derive(Clone, Copy, Debug, PartialEq, Eq)]
pub enum Direction {
    In,
    Out,
}

/// What a port carries.
#[derive(Debug, Drop)]
pub enum PortKind {
    /// The newest value of a class of data.
    Data(Class),
    /// Events without a value.
    Event,
    /// Events with values of a class of data.
    EventData(Class),
}

/// A port.
#[derive(Debug, Drop)]
pub struct Feature {
    pub name: Named,
    pub direction: Direction,
    pub kind: PortKind,
    /// What stands in braces behind it, which may be nothing.
    pub own: Option<Rows<Association>>,
}
