//! The schedule of an architecture: one slot a domain in each frame.
#![tactic(auto)]

mod frame_slots;
mod multiples;
mod need;
mod plan;
mod slot;

pub use frame_slots::FrameSlots;
pub use plan::schedule;
pub use slot::{Slot, SlotList};
