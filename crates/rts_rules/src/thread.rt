//! A thread: what it may do, and what that leaves.

ghost use Rattle.std.specs.Prelude.{◌≡◌, ◌↔◌, ◌<◌, ◌≤◌, true, IsTrue, IfOk, OnOk, OnErr, Some, slice_get, length};
ghost use Rattle.rts_rules.specs.Services.{opening_thread};
ghost use Rattle.rts_rules.specs.Thread.{left_of_thread};
ghost use Rattle.rts_rules.specs.ThreadRules.{ThreadAllows, IsReceive, GoesOn, IsVoid, IsCompute, IsPut, IsNext, MayReceive, MayReceiveAs, CopiesItems, CopiesAs};
ghost use Rattle.rts_rules.specs.declared.event.What.TheVariants as act;
ghost use Rattle.rts_rules.specs.Left.{left_as};
ghost use Rattle.rts_rules.specs.Step.{NamesPorts};

use crate::What;
use crate::order::Order;
use crate::phase::Phase;
use crate::ports::is_port_of;
use crate::slots::Slots;
use crate::values::is_value_of_port;
use arch_model::{Arch, PdId, PortId, PortIdList, Role};
use hw_text::NoMemory;
use hw_types::{Copied, Value, ValueList};
use std::alloc::Global;

/// A thread between two steps.
#[derive(Drop)]
pub struct Thread {
    /// The ports at which it receives, in order: connected event and event data ports, then connected
    /// data ports.
    pub order: PortIdList,
    /// How many of them are event and event data ports.
    pub queued: usize,
    pub phase: Phase,
    /// Whether a tick is owed.
    pub owed: bool,
    pub slots: Slots,
}

impl Thread {
    /// The thread of a domain at the start.
    pub fn opening(alloc: Global, arch: &Arch, who: PdId) -> Result<Thread, NoMemory>
        ensures { IfOk result (λ thread. thread ≡ opening_thread arch.now who) }
    {
        let order = Order::of(alloc, arch, who)?;
        Ok(Thread {
            order: order.ports,
            queued: order.queued,
            phase: Phase::Starting,
            owed: false,
            slots: Slots::opening(alloc, arch, who)?,
        })
    }

    /// Whether a thread of this role may do this.
    pub fn allows(&self, arch: &Arch, who: PdId, role: Role, what: &What) -> bool
        requires { NamesPorts arch.now what.now }
        ensures { IsTrue result ↔ ThreadAllows arch.now who role self.now what.now }
    {
        match what {
            What::Tick => role == Role::Periodic,
            What::Init => self.phase == Phase::Starting,
            What::Begin => self.phase == Phase::Idle && (role != Role::Periodic || self.owed),
            What::Receive(port, _) => self.receives_next(role, *port),
            What::Void => self.finds_nothing(role),
            What::Compute => self.has_received(role),
            What::Put(port, value) => self.may_put(arch, who, *port, value),
            What::Verdict(..) | What::Send => self.phase == Phase::Computing,
            What::Release(port, value) => {
                self.phase == Phase::Sending && self.slots.sends_next(*port, value)
            }
            What::End => self.phase == Phase::Sending && self.slots.sends_none(),
        }
    }

    /// Whether the port is the next at which it receives.
    fn receives_next(&self, role: Role, port: PortId) -> bool
        ensures { IsTrue result ↔ IsReceive role self.now port }
    {
        match self.phase {
            Phase::Receiving(number) => {
                is_at(self.order.rows(), number, port) && self.goes_on(role, number)
            }
            _ => false,
        }
    }

    /// Whether the receive of this number may come next: a sporadic thread goes on to its data ports only
    /// where something arrived.
    fn goes_on(&self, role: Role, number: usize) -> bool
        ensures { IsTrue result ↔ GoesOn role self.now number }
    {
        match role {
            Role::Sporadic => number < self.queued || self.slots.has_arrived(),
            Role::Device | Role::Periodic => true,
        }
    }

    /// Whether it has looked at all its event and event data ports, and nothing arrived.
    fn finds_nothing(&self, role: Role) -> bool
        ensures { IsTrue result ↔ IsVoid role self.now }
    {
        role == Role::Sporadic
            && self.phase == Phase::Receiving(self.queued)
            && !self.slots.has_arrived()
    }

    /// Whether it has received at all its ports, and may compute.
    fn has_received(&self, role: Role) -> bool
        ensures { IsTrue result ↔ IsCompute role self.now }
    {
        self.phase == Phase::Receiving(self.order.len())
            && (role != Role::Sporadic || self.slots.has_arrived())
    }

    /// Whether it may put this value to this port.
    fn may_put(&self, arch: &Arch, who: PdId, port: PortId, value: &Value) -> bool
        requires { port.0 < length arch.now.ports }
        ensures { IsTrue result ↔ IsPut arch.now who self.now port value.now }
    {
        self.phase == Phase::Computing
            && is_port_of(arch, who, true, port)
            && is_value_of_port(arch, port, value)
    }

    /// Does this, where it may; a device's stays as it is.
    pub fn act_as(&mut self, role: Role, what: &What) -> Result<(), NoMemory>
        requires { MayReceiveAs role self.old what.now }
        ensures ok { OnOk result (self.new ≡ left_as role what.now self.old) }
        ensures err { OnErr result (self.new ≡ self.old) }
        ensures memory { OnErr result (CopiesAs role what.now) }
    {
        match role {
            Role::Device => Ok(()),
            Role::Periodic | Role::Sporadic => self.act(what),
        }
    }

    /// Does this, where it may.
    fn act(&mut self, what: &What) -> Result<(), NoMemory>
        requires { MayReceive self.old what.now }
        ensures ok { OnOk result (self.new ≡ left_of_thread self.old what.now) }
        ensures err { OnErr result (self.new ≡ self.old) }
        ensures memory { OnErr result (CopiesItems what.now) }
    {
        match what {
            What::Tick => self.owed = true,
            What::Begin => {
                self.owed = false;
                self.phase = Phase::Receiving(0);
            }
            What::Init | What::Compute => self.phase = Phase::Computing,
            What::Receive(port, items) => self.receive(*port, items)?,
            What::Put(port, value) => self.slots.hold(*port, Some(value.copy()?)),
            What::Verdict(..) => {}
            What::Send => self.phase = Phase::Sending,
            What::Release(port, _) => self.slots.hold(*port, None),
            What::Void => self.phase = Phase::Idle,
            What::End => {
                self.slots.clear();
                self.phase = Phase::Idle;
            }
        }
        Ok(())
    }

    /// Receives these items at the next port.
    fn receive(&mut self, port: PortId, items: &ValueList) -> Result<(), NoMemory>
        requires { IsNext self.old port }
        ensures ok { OnOk result (self.new ≡ left_of_thread self.old (act.Receive port items.now)) }
        ensures err { OnErr result (self.new ≡ self.old) }
    {
        let _count = self.order.len();
        self.slots.freeze(port, items)?;
        if let Phase::Receiving(number) = self.phase {
            self.phase = Phase::Receiving(number + 1);
        }
        Ok(())
    }
}

/// Whether the port has this number in the order.
fn is_at(order: &[PortId], number: usize, port: PortId) -> bool
    ensures { IsTrue result ↔ (slice_get order.now number ≡ Some port) }
{
    match order.get(number) {
        Some(other) => *other == port,
        None => false,
    }
}
