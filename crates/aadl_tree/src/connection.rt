//! Connections.

use crate::association::Association;
use crate::names::Named;
use hw_text::{Name, Rows};

/// A connection from one port to another.
#[derive(Debug, Drop)]
pub struct Connection {
    pub name: Named,
    pub from: ConnectionEnd,
    pub to: ConnectionEnd,
    /// What stands in braces behind it, which may be nothing.
    pub own: Option<Rows<Association>>,
}

/// An end of a connection: a port of the component itself, or behind the dot one of a subcomponent.
#[derive(Debug, Drop)]
pub struct ConnectionEnd {
    pub first: Named,
    pub port: Option<Name>,
}
