//! What the values of properties mean, and which values each property of the table may have.
#![tactic(auto)]

mod column;
mod distinct;
mod enumerators;
mod layer;
mod numbers;
mod property;
mod spelled;
mod time_range;
mod times;
mod unit;
mod words;

pub use column::sole_value;
pub use enumerators::enumerators_of;
pub use layer::{classifier_of, reference_of};
pub use numbers::{dimension_of, integer_between, queue_size_of};
pub use property::{Property, property_named};
pub use spelled::Spelled;
pub use time_range::TimeRange;
pub use times::{positive_time_of, time_of, time_range_of};
pub use words::{
    Dequeue, Dispatch, Overflow, Representation, dequeue_of, dispatch_of, overflow_of,
    representation_of,
};
