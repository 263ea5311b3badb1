//! The names of a model: what it declares, as tables in text order, and what its references mean.
#![tactic(auto)]

mod associations;
mod class_row;
mod counting;
mod element;
mod held;
mod index;
mod keyed;
mod lasts;
mod part;
mod parts;
mod paths;
mod references;
mod repeated;
mod resolved;
mod tables;
mod told;
mod walk;

pub use associations::AssociationRow;
pub use class_row::ClassRow;
pub use counting::{Component, Step};
pub use element::Element;
pub use held::Held;
pub use index::Index;
pub use keyed::Keyed;
pub use lasts::own_last;
pub use part::Part;
pub use parts::PartRow;
pub use paths::Scope;
pub use references::{References, category_of};
pub use repeated::Repeated;
pub use resolved::{Resolved, at_row};
pub use tables::{AnnexRow, Tables};
pub use told::{Test, earlier, first_offence, named};
pub use walk::declared;
