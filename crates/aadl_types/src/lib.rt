//! Which data types a model declares, how they are built, and how they lie in memory.
#![tactic(auto)]

mod bases;
mod deciding;
mod declared_data;
mod extents;
mod order;
mod parts;
mod passes;
mod shape;
mod shapes;
mod shaping;

pub use bases::scalar_of;
pub use deciding::Deciding;
pub use declared_data::{data_rows, is_data};
pub use extents::Extents;
pub use parts::{base_part, part_of};
pub use passes::shape_at;
pub use shape::{Part, Shape};
pub use shapes::Shapes;
pub use shaping::{deciding_with, declared_type, implementation_shape, type_shape};
