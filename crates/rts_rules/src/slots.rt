//! The slots of a thread's ports.

ghost use Rattle.std.specs.Prelude.{◌≡◌, ◌↔◌, ◌<◌, ℕ, true, IsTrue, IfOk, IfSome, IfNone, OnOk, OnErr, Some, None, length, map, slice_index_or, slice_set};
ghost use Rattle.rts_rules.specs.declared.slot.Slot.{Slot as AnySlot};
ghost use Rattle.rts_rules.specs.Thread.{has_arrived, next_sent, changed_slot, frozen, holding};
ghost use Rattle.rts_rules.specs.Services.{slots_from};

use crate::ports::{is_owned, is_queued};
use crate::slot::Slot;
use crate::values::{has_item, same_value};
use arch_model::{Arch, PdId, PortId, Usage};
use hw_text::NoMemory;
use hw_types::{Value, ValueList};
use std::alloc::Global;
use std::marker::Model;

/// The slots of a domain's ports, in their order.
#[derive(Drop)]
pub struct Slots {
    slots: Vec<Slot>,
}

impl Model for Slots {
    ghost use Rattle.std.specs.Prelude.{List};
    ghost use Rattle.rts_rules.specs.declared.slot.Slot.{Slot};

    ghost Value = { List Slot };

    ghost view = { λ s. s.slots.items };
}

impl Slots {
    /// The slots of a domain at the start.
    pub fn opening(alloc: Global, arch: &Arch, who: PdId) -> Result<Self, NoMemory>
        ensures { IfOk result (λ slots. slots ≡ slots_from 0 arch.now who arch.now.ports) }
    {
        let mut slots = Vec::new(alloc);
        for number in 0..arch.port_count() {
            if is_owned(arch, who, PortId(number)) {
                slots.push(Slot::opening(alloc, arch, PortId(number))?)?;
            }
        }
        Ok(Slots { slots })
    }

    /// Whether something was frozen at a connected event or event data port.
    pub fn has_arrived(&self) -> bool
        ensures { result ≡ has_arrived self.now }
    {
        for slot in &self.slots {
            if is_queued(slot.usage) && has_item(&slot.frozen) {
                return true;
            }
        }
        false
    }

    /// Whether this port is the next that sends, and this value what it holds.
    pub fn sends_next(&self, port: PortId, value: &Value) -> bool
        ensures { IsTrue result ↔ (next_sent self.now ≡ Some (port, value.now)) }
    {
        for slot in &self.slots {
            if let (Usage::Sent, Some(held)) = (slot.usage, &slot.held) {
                return slot.port == port && same_value(held, value);
            }
        }
        false
    }

    /// Whether no connected out port holds a value.
    pub fn sends_none(&self) -> bool
        ensures { IsTrue result ↔ (next_sent self.now ≡ None) }
    {
        for slot in &self.slots {
            if let (Usage::Sent, Some(_)) = (slot.usage, &slot.held) {
                return false;
            }
        }
        true
    }

    /// The place of a port's slot.
    fn place(&self, port: PortId) -> Option<usize>
        ensures within { IfSome result (λ place. place < length self.now) }
        ensures changed { IfSome result (λ place. (change : AnySlot → AnySlot) (d : AnySlot) → changed_slot port change self.now ≡ slice_set self.now place (change (slice_index_or self.now place d))) }
        ensures none { IfNone result ((change : AnySlot → AnySlot) → changed_slot port change self.now ≡ self.now) }
    {
        for (place, slot) in self.slots.iter().enumerate() {
            if slot.port == port {
                return Some(place);
            }
        }
        None
    }

    /// Freezes what was received at a port.
    pub fn freeze(&mut self, port: PortId, items: &ValueList) -> Result<(), NoMemory>
        ensures ok { OnOk result (self.new ≡ changed_slot port (frozen items.now) self.old) }
        ensures err { OnErr result (self.new ≡ self.old) }
    {
        match self.place(port) {
            Some(place) => self.slots[place].freeze(items),
            None => Ok(()),
        }
    }

    /// Lets a port hold a value, or none.
    pub fn hold(&mut self, port: PortId, held: Option<Value>)
        ensures { self.new ≡ changed_slot port (holding held) self.old }
    {
        if let Some(place) = self.place(port) {
            self.slots[place].hold(held);
        }
    }

    /// Lets no port hold a value.
    pub fn clear(&mut self)
        ensures { self.new ≡ map (holding None) self.old }
    {
        for place in 0..self.slots.len() {
            self.slots[place].hold(None);
        }
    }
}
