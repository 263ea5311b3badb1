//! A whole model.

use crate::thin::connection::Connection;
use crate::thin::device::Device;
use crate::thin::heading::{Ending, Heading};
use crate::thin::subcomponent::Subcomponent;
use hw_text::{Name, Rows};

/// A model of connected devices, as it is written.
#[derive(Debug, Drop)]
pub struct ThinModel {
    pub package_name: Name,
    pub devices: Rows<Device>,
    pub heading: Heading,
    pub subcomponents: Rows<Subcomponent>,
    pub connections: Rows<Connection>,
    pub ending: Ending,
}
