//! Laws of whole runs of the services, which hold by themselves.
#![tactic(auto)]

mod product;
mod queues;
mod sending;

pub use product::runs_are_products;
pub use queues::received_in_order;
pub use sending::sent_while_sending;
