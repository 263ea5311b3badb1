//! Where a link begins.

use hw_text::Rows;

/// An out port of a thread or a device, and by which connection a link from it leads across.
#[derive(Debug, Drop)]
pub struct Source {
    /// The rows of the subcomponents on the way to the component, from outside.
    pub path: Rows<usize>,
    /// The row of the port.
    pub feature: usize,
    /// The row of the connection across.
    pub across: usize,
}
