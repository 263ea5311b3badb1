//! Packages.

use crate::annex::Annex;
use crate::component::{ComponentType, Implementation};
use crate::names::QualifiedName;
use hw_text::Rows;

/// The model of a text: a package, whose name stands at its end once more, though maybe another
/// there.
#[derive(Debug, Drop)]
pub struct Package {
    pub name: QualifiedName,
    pub imports: Rows<Import>,
    pub declarations: Rows<Declaration>,
    pub end_name: QualifiedName,
}

/// The packages that the names behind one `with` stand for.
#[derive(Debug, Drop)]
pub struct Import {
    pub first: QualifiedName,
    pub others: Rows<QualifiedName>,
}

/// What a package is made of.
#[derive(Debug, Drop)]
pub enum Declaration {
    Type(ComponentType),
    Implementation(Implementation),
    Annex(Annex),
}
