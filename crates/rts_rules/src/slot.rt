//! What a thread has at one of its ports.

ghost use Rattle.std.specs.Prelude.{◌≡◌, ◌<◌, IfOk, OnOk, OnErr, length, IsSomeAnd, slice_get};
ghost use Rattle.rts_rules.specs.Thread.{frozen, holding};
ghost use Rattle.rts_rules.specs.Services.{opening_slot};

use crate::values::{is_data_port, zero_of};
use arch_model::{Arch, PortId, Usage};
use hw_text::NoMemory;
use hw_types::{Copied, Value, ValueList};
use std::alloc::Global;

/// A port of a thread, as the thread has it between two steps.
#[derive(Drop)]
pub struct Slot {
    pub port: PortId,
    pub usage: Usage,
    /// What the last receive took.
    pub frozen: ValueList,
    /// The last value that a data in port received, at first zero; none at other ports.
    pub kept: Option<Value>,
    /// The value that was put to an out port and has not left.
    pub held: Option<Value>,
}

impl Slot {
    /// The slot of a port at the start.
    pub fn opening(alloc: Global, arch: &Arch, id: PortId) -> Result<Slot, NoMemory>
        requires { id.0 < length arch.now.ports }
        ensures { IfOk result (λ slot. IsSomeAnd (slice_get arch.now.ports id.0) (λ port. slot ≡ opening_slot arch.now id port)) }
    {
        let port = &arch.ports()[id.0 as usize];
        Ok(Slot {
            port: id,
            usage: arch.usage(id),
            frozen: ValueList::new(alloc),
            kept: if !port.outward && is_data_port(port.kind) {
                Some(zero_of(alloc, arch, port)?)
            } else {
                None
            },
            held: None,
        })
    }

    /// Freezes what was received, and keeps a data port's item.
    pub fn freeze(&mut self, items: &ValueList) -> Result<(), NoMemory>
        ensures ok { OnOk result (self.new ≡ frozen items.now self.old) }
        ensures err { OnErr result (self.new ≡ self.old) }
    {
        let copies = items.copy()?;
        if self.kept.is_some() {
            if let Some(item) = items.rows().first() {
                self.kept = Some(item.copy()?);
            }
        }
        self.frozen = copies;
        Ok(())
    }

    /// Holds a value, or none.
    pub fn hold(&mut self, held: Option<Value>)
        ensures { self.new ≡ holding held self.old }
    {
        self.held = held;
    }
}
