//! The opening and the end of the system's implementation.

use hw_text::Name;

/// The name of an implementation, behind that of its type.
#[derive(Debug, Drop)]
pub struct ImplementationName {
    pub system: Name,
    pub own: Name,
}

/// The system type, and where its implementation begins.
#[derive(Debug, Drop)]
pub struct Heading {
    pub system: Name,
    /// The name after the `end` of the system type.
    pub system_end: Name,
    pub implementation: ImplementationName,
}

/// The names after the last two `end`s.
#[derive(Debug, Drop)]
pub struct Ending {
    pub implementation: ImplementationName,
    pub package_name: Name,
}
