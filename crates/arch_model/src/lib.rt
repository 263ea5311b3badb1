//! The instance of a model: its domains, their ports and the links between them, well-formed.
#![tactic(auto)]

mod arch;
mod base_types;
mod form;
mod id;
mod kind;
mod laws;
mod link;
mod name_index;
mod origin;
mod parts;
mod pd;
mod port;
mod receivers;
mod role;
mod type_row;
mod usage;

pub use arch::Arch;
pub use base_types::{EVENT_TYPE, base_rows, scalar_of};
pub use form::Form;
pub use id::{PdId, PortId, PortIdList};
pub use kind::Kind;
pub use laws::{base_is_table, one_type, ranked_rows_have_types};
pub use link::{Link, LinkList};
pub use origin::{Origin, OriginList};
pub use parts::ArchParts;
pub use pd::{Pd, PdList};
pub use port::{Port, PortList};
pub use receivers::Receivers;
pub use role::Role;
pub use type_row::{NumberList, TypeRow, TypeRowList};
pub use usage::Usage;
