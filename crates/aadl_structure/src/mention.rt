//! What property associations refer to.

use aadl_names::{ClassRow, Held};
use aadl_tree::{Category, Class, Path};

/// A reference in a property association.
#[derive(Drop)]
pub enum Mention<'a> {
    /// A path, and from which type or implementation it counts: from none it leads to nothing.
    Path(Option<ClassRow>, Held<'a, Path>),
    /// A classifier, and the category that is asked for: for none any is right.
    Class(Option<Category>, Held<'a, Class>),
}
