//! The connections of the system's implementation.

use crate::thin::name_set::Named;
use hw_text::Name;

/// One end of a connection: a port of a subcomponent.
#[derive(Debug, Drop)]
pub struct Tip {
    pub component: Name,
    pub port: Name,
}

/// A connection.
#[derive(Debug, Drop)]
pub struct Connection {
    pub name: Name,
    pub from: Tip,
    pub to: Tip,
}

impl Named for Connection {
    ghost name_of = { λ c. c.name };

    fn name(&self) -> &[u8] {
        self.name.rows()
    }
}
