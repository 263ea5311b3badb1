//! Subcomponents.

use crate::association::Association;
use crate::category::Category;
use crate::class::Class;
use crate::names::Named;
use hw_text::Rows;

/// A component inside another.
#[derive(Debug, Drop)]
pub struct Subcomponent {
    pub name: Named,
    pub category: Category,
    pub class: Class,
    /// What stands in braces behind it, which may be nothing.
    pub own: Option<Rows<Association>>,
}
