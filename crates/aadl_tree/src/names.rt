//! Names where they stand, and what is made of several.

use hw_text::{Name, Place, Rows};

/// A name, and where it stands.
#[derive(Debug, Drop)]
pub struct Named {
    pub name: Name,
    pub place: Place,
}

/// Names with `::` between them: the name of a package, of a property, or of what a property is
/// set to.
#[derive(Debug, Drop)]
pub struct QualifiedName {
    pub first: Named,
    pub others: Rows<Name>,
}

/// Names with dots between them, which lead from a component down to a part of it.
#[derive(Debug, Drop)]
pub struct Path {
    pub first: Named,
    pub others: Rows<Name>,
}

/// The name of an implementation: that of its type, and behind a dot its own.
#[derive(Debug, Drop)]
pub struct ImplementationName {
    pub component_type: Named,
    pub name: Name,
}
