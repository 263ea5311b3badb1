//! The device types of a model.

use crate::thin::feature::Feature;
use crate::thin::name_set::Named;
use hw_text::{Name, Rows};

/// A device type.
#[derive(Debug, Drop)]
pub struct Device {
    pub name: Name,
    pub features: Rows<Feature>,
    /// The name after `end`.
    pub end_name: Name,
}

impl Named for Device {
    ghost name_of = { λ d. d.name };

    fn name(&self) -> &[u8] {
        self.name.rows()
    }
}
