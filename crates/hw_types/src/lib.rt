//! Types, their layouts in memory, and values as bytes.
#![tactic(auto)]

mod bytes;
mod copied;
mod count;
mod extent;
mod fault;
mod field_cell;
mod laws;
mod layout;
mod members;
mod place;
mod scalar;
mod spot;
mod ty;
mod value;

pub use bytes::{bytes_of, value_of};
pub use copied::Copied;
pub use extent::{Extent, Width};
pub use fault::TypeFault;
pub use field_cell::{FieldCell, FieldCellList};
pub use laws::{aligned_least, all_laid_out, read_back, whole_size};
pub use layout::Layout;
pub use members::Members;
pub use place::layout_of;
pub use scalar::Scalar;
pub use spot::Spot;
pub use ty::{Ty, TyList};
pub use value::{Value, ValueList};
