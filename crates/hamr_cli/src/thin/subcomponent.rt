//! The subcomponents of the system's implementation.

use crate::thin::name_set::Named;
use hw_text::Name;

/// A subcomponent, which is a device.
#[derive(Debug, Drop)]
pub struct Subcomponent {
    pub name: Name,
    /// The name of the device type.
    pub device: Name,
}

impl Named for Subcomponent {
    ghost name_of = { λ s. s.name };

    fn name(&self) -> &[u8] {
        self.name.rows()
    }
}
