//! The queue of a port.

ghost use Rattle.std.specs.Prelude.{◌≡◌, ◌↔◌, ◌≤◌, IsTrue, IfOk, [], length, take, Some, slice_get};
ghost use Rattle.rts_rules.specs.Queue.{appended, offered, taken};

use crate::item::Item;
use crate::values::same_numbers;
use circular_buffer::HeapCircularBuffer;
use hw_text::NoMemory;
use hw_types::ValueList;
use std::alloc::Global;
use std::marker::Model;

/// The items that wait at a port, the oldest first, in a ring with room for all of them, so that one more
/// can always be appended: where there is no room left, the oldest item goes
/// (SAE AS5506, Overflow_Handling_Protocol DropOldest).
#[derive(Drop)]
pub struct WaitingQueue {
    items: HeapCircularBuffer<Item>,
    /// Whether a receive takes all items, or one.
    whole: bool,
    /// Whether a link ends at the port.
    linked: bool,
}

impl Model for WaitingQueue {
    ghost use Rattle.rts_rules.specs.Queue.{Queue};

    ghost Value = { Queue };

    ghost view = { λ q. record { room = q.items.capacity; whole = q.whole; linked = q.linked; items = q.items.items } };
}

impl WaitingQueue {
    /// An empty queue for so many items.
    pub fn new(alloc: Global, room: u32, whole: bool, linked: bool) -> Result<Self, NoMemory>
        ensures { IfOk result (λ queue. queue ≡ record { room = room; whole = whole; linked = linked; items = [] }) }
    {
        Ok(WaitingQueue {
            items: HeapCircularBuffer::with_capacity(alloc, room as usize)?,
            whole,
            linked,
        })
    }

    /// Whether a link ends at the port.
    pub fn is_linked(&self) -> bool
        ensures { result ≡ self.now.linked }
    {
        self.linked
    }

    /// Whether a receive takes just these items.
    pub fn offers(&self, items: &ValueList) -> bool
        ensures { IsTrue result ↔ (items.now ≡ offered self.now) }
    {
        if items.len() != self.offered_count() {
            return false;
        }
        for (place, item) in items.rows().iter().enumerate() {
            if !self.has_at(place, item.rows()) {
                return false;
            }
        }
        true
    }

    /// How many items a receive takes.
    fn offered_count(&self) -> usize
        ensures offered { offered self.now ≡ take result self.now.items }
        ensures within { result ≤ length self.now.items }
    {
        let count = self.items.len();
        if self.whole { count } else { count.min(1) }
    }

    /// Whether the item at this place has this value.
    fn has_at(&self, place: usize, value: &[i128]) -> bool
        ensures { IsTrue result ↔ (slice_get self.now.items place ≡ Some value.now) }
    {
        match self.items.get(place) {
            Some(item) => same_numbers(item.rows(), value),
            None => false,
        }
    }

    /// Appends an item.
    pub fn append(&mut self, item: Item)
        ensures { self.new ≡ appended self.old item }
    {
        let _oldest = self.items.push_back(item);
    }

    /// Takes away what a receive takes.
    pub fn take(&mut self)
        ensures { self.new ≡ taken self.old }
    {
        if self.whole {
            self.items.clear();
        } else {
            let _item = self.items.pop_front();
        }
    }
}
