//! The slots of each frame of an architecture.

ghost use Rattle.std.specs.Prelude.{◌≡◌, IfOk};
ghost use Rattle.domain_sched.specs.Slots.{slots_of};

use crate::{Slot, SlotList};
use arch_model::{Arch, PdId};
use hw_text::NoMemory;
use std::alloc::Global;

/// What each frame consists of.
#[derive(Debug, Drop)]
pub struct FrameSlots {
    slots: SlotList,
}

impl FrameSlots {
    /// One slot for each domain, with its upper execution time.
    pub fn of(alloc: Global, arch: &Arch) -> Result<FrameSlots, NoMemory>
        ensures { IfOk result (λ frame. frame.slots ≡ slots_of arch.now.pds) }
    {
        let mut slots = SlotList::new(alloc);
        for (place, pd) in arch.pds().iter().enumerate() {
            slots.push(Slot {
                pd: PdId(place as u32),
                length: pd.upper,
            })?;
        }
        Ok(FrameSlots { slots })
    }

    pub fn slots(&self) -> &SlotList
        ensures { result.now ≡ self.now.slots }
    {
        &self.slots
    }
}
