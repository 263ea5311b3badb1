//! Component types and their implementations.

use crate::annex::Annex;
use crate::association::Association;
use crate::category::Category;
use crate::connection::Connection;
use crate::feature::Feature;
use crate::names::{ImplementationName, Named};
use crate::subcomponent::Subcomponent;
use hw_text::Rows;

/// What a component shows to others. A section of no members is not written.
#[derive(Debug, Drop)]
pub struct ComponentType {
    pub category: Category,
    pub name: Named,
    pub features: Rows<Feature>,
    pub properties: Rows<Association>,
    pub annexes: Rows<Annex>,
    /// The name behind `end`.
    pub end_name: Named,
}

/// What a component is made of. A section of no members is not written.
#[derive(Debug, Drop)]
pub struct Implementation {
    pub category: Category,
    pub name: ImplementationName,
    pub subcomponents: Rows<Subcomponent>,
    pub connections: Rows<Connection>,
    pub properties: Rows<Association>,
    pub annexes: Rows<Annex>,
    /// The name behind `end`.
    pub end_name: ImplementationName,
}
