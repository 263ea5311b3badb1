//! A protection domain.

use crate::Role;
use hw_text::{Name, Rows};

/// A domain: a process with its one thread, or a device.
#[derive(Debug, Drop)]
pub struct Pd {
    /// The path of the component below the root, its parts joined by `_`.
    pub name: Name,
    pub role: Role,
    /// In picoseconds; 0 where the thread has no period.
    pub period: u64,
    /// The upper execution time of one dispatch, in picoseconds.
    pub upper: u64,
}

/// The domains of an architecture, in the order of their declaration.
pub type PdList = Rows<Pd>;
