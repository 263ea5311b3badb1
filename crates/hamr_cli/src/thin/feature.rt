//! The features of a device.

use crate::thin::name_set::Named;
use hw_text::Name;

/// Which way items go through a port.
#[derive(Clone, Copy, Debug, PartialEq, Eq)]
pub enum Way {
    Out,
    In,
    /// In, with a Queue_Size.
    Queued(u32),
}

/// An event data port of a device.
#[derive(Debug, Drop)]
pub struct Feature {
    pub name: Name,
    pub way: Way,
}

impl Named for Feature {
    ghost name_of = { λ f. f.name };

    fn name(&self) -> &[u8] {
        self.name.rows()
    }
}
