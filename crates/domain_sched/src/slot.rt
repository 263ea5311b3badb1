//! Slots of a frame.

use arch_model::PdId;
use hw_text::Rows;

/// The time that a domain has in each frame.
#[derive(Clone, Copy, Debug, PartialEq, Eq)]
pub struct Slot {
    pub pd: PdId,
    /// In picoseconds.
    pub length: u64,
}

/// The slots of a frame, in the order in which they come.
pub type SlotList = Rows<Slot>;
