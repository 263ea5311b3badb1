//! The state of the services, and its step.

ghost use Rattle.std.specs.Prelude.{◌≡◌, ◌↔◌, ◌<◌, ℤ, List, true, IsTrue, IsSomeAnd, slice_get, IfOk, OnOk, OnErr, length, replicate};
ghost use Rattle.arch_model.specs.LookUp.{receivers_of};
ghost use Rattle.arch_model.specs.Usage.{has_receiver};
ghost use Rattle.rts_rules.specs.Services.{start_of, IsStateOf, opening_queue};
ghost use Rattle.rts_rules.specs.Left.{after, changed_at, released, left_as};
ghost use Rattle.rts_rules.specs.Queue.{taken};
ghost use Rattle.rts_rules.specs.ThreadRules.{MayReceiveAs, CopiesAs};
ghost use Rattle.rts_rules.specs.Step.{IsAllowed, IsEventOf, WantsMemory, AllowsAs, DeviceAllows, QueuesAllow, NamesPorts, ReceivesWithin};
ghost use Rattle.rts_rules.specs.Fault.{IfIllegal, IfNoMemory};
ghost use Rattle.rts_rules.specs.Rule.{rule_of};

use crate::item::Item;
use crate::ports::{is_device, is_port_of, role_of};
use crate::queue::WaitingQueue;
use crate::thread::Thread;
use crate::values::{is_data_port, is_value_of_port};
use crate::{Event, StepFault, What};
use arch_model::{Arch, PdId, PortId, Role};
use hw_text::{NoMemory, Rows};
use hw_types::{Copied, Value};
use std::alloc::Global;
use std::marker::Model;

/// The threads of an architecture, and what waits at its ports.
#[derive(Drop)]
pub struct ServiceState {
    threads: Vec<Thread>,
    queues: Vec<WaitingQueue>,
}

impl Model for ServiceState {
    ghost use Rattle.rts_rules.specs.Services.{Services};

    ghost Value = { Services };

    ghost view = { λ s. record { threads = s.threads.items; queues = s.queues.items } };
}

impl ServiceState {
    /// The opening state: each thread is starting, and nothing waits.
    pub fn start(alloc: Global, arch: &Arch) -> Result<ServiceState, NoMemory>
        ensures start { IfOk result (λ state. state ≡ start_of arch.now) }
        ensures started { IfOk result (λ state. IsStateOf arch.now state) }
    {
        let mut threads = Vec::new(alloc);
        for number in 0..arch.pds().len() {
            threads.push(Thread::opening(alloc, arch, PdId(number as u32))?)?;
        }
        let mut queues = Vec::new(alloc);
        for number in 0..arch.port_count() {
            queues.push(queue_of(alloc, arch, PortId(number))?)?;
        }
        Ok(ServiceState { threads, queues })
    }

    /// Takes the step of an event that a rule allows. The architecture is that of `start`.
    pub fn step(&mut self, alloc: Global, arch: &Arch, e: &Event) -> Result<(), StepFault>
        requires started { IsStateOf arch.now self.old }
        requires event { IsEventOf arch.now e.now }
        ensures allowed { OnOk result (IsAllowed arch.now self.old e.now) }
        ensures after { OnOk result (self.new ≡ after arch.now self.old e.now) }
        ensures illegal { IfIllegal result (λ rule. (IsAllowed arch.now self.old e.now → ⊥) × (rule ≡ rule_of e.now.what)) }
        ensures memory { IfNoMemory result (WantsMemory arch.now e.now) }
        ensures unchanged { OnErr result (self.new ≡ self.old) }
        ensures started { IsStateOf arch.now self.new }
    {
        if !self.allows(arch, e) {
            return Err(StepFault::Illegal(e.what.rule()));
        }
        Ok(self.take(alloc, arch, e)?)
    }

    /// Whether a rule allows the event.
    fn allows(&self, arch: &Arch, e: &Event) -> bool
        requires started { IsStateOf arch.now self.now }
        requires event { IsEventOf arch.now e.now }
        ensures { IsTrue result ↔ IsAllowed arch.now self.now e.now }
    {
        let role = role_of(arch, e.who);
        let thread = &self.threads[e.who.0 as usize];
        allows_as(arch, e.who, role, thread, &e.what) && self.queues_allow(&e.what)
    }

    /// Whether the event is no receive, or receives what is offered.
    fn queues_allow(&self, what: &What) -> bool
        requires { ReceivesWithin (length self.now.queues) what.now }
        ensures { IsTrue result ↔ QueuesAllow self.now.queues what.now }
    {
        match what {
            What::Receive(port, items) => {
                let queue = &self.queues[port.0 as usize];
                queue.is_linked() && queue.offers(items)
            }
            _ => true,
        }
    }

    /// Takes the step of an event that is allowed.
    fn take(&mut self, alloc: Global, arch: &Arch, e: &Event) -> Result<(), NoMemory>
        requires started { IsStateOf arch.now self.old }
        requires event { IsEventOf arch.now e.now }
        requires allowed { IsAllowed arch.now self.old e.now }
        ensures after { OnOk result (self.new ≡ after arch.now self.old e.now) }
        ensures memory { OnErr result (WantsMemory arch.now e.now) }
        ensures unchanged { OnErr result (self.new ≡ self.old) }
    {
        let role = role_of(arch, e.who);
        match &e.what {
            What::Receive(port, _) => {
                self.act(e.who, role, &e.what)?;
                self.receive(*port);
                Ok(())
            }
            What::Release(port, value) => {
                let copies = copies_for(alloc, arch, *port, value)?;
                self.act(e.who, role, &e.what)?;
                self.append(arch, *port, copies);
                Ok(())
            }
            _ => self.act(e.who, role, &e.what),
        }
    }

    /// Lets the thread of a domain act.
    fn act(&mut self, who: PdId, role: Role, what: &What) -> Result<(), NoMemory>
        requires inside { who.0 < length self.old.threads }
        requires allowed { IsSomeAnd (slice_get self.old.threads who.0) (λ thread. MayReceiveAs role thread what.now) }
        ensures ok { OnOk result (self.new ≡ record self.old { threads = changed_at who.0 (left_as role what.now) self.old.threads }) }
        ensures memory { OnErr result (CopiesAs role what.now) }
        ensures unchanged { OnErr result (self.new ≡ self.old) }
    {
        self.threads[who.0 as usize].act_as(role, what)
    }

    /// Takes away what a receive takes at a port.
    fn receive(&mut self, port: PortId)
        requires { port.0 < length self.old.queues }
        ensures { self.new ≡ record self.old { queues = changed_at port.0 taken self.old.queues } }
    {
        self.queues[port.0 as usize].take();
    }

    /// Appends one of the copies at each receiver of the port.
    fn append(&mut self, arch: &Arch, port: PortId, mut copies: Rows<Item>)
        requires port { port.0 < length arch.now.ports }
        requires queues { length self.old.queues ≡ length arch.now.ports }
        requires many { length copies ≡ length (receivers_of arch.now.links port) }
        ensures { (value : List ℤ) → copies ≡ replicate (length (receivers_of arch.now.links port)) value → self.new ≡ record self.old { queues = released (receivers_of arch.now.links port) value self.old.queues } }
    {
        for receiver in arch.receivers(port) {
            let Some(copy) = copies.pop() else {
                unreachable!()
            };
            self.queues[receiver.0 as usize].append(copy);
        }
    }
}

/// A copy of the value for each receiver of the port.
fn copies_for(
    alloc: Global,
    arch: &Arch,
    port: PortId,
    value: &Value,
) -> Result<Rows<Item>, NoMemory>
    requires { port.0 < length arch.now.ports }
    ensures copies { IfOk result (λ copies. copies ≡ replicate (length (receivers_of arch.now.links port)) value.now) }
    ensures memory { OnErr result (has_receiver arch.now.links port ≡ true) }
{
    let mut copies = Rows::new(alloc);
    if !arch.has_receiver(port) {
        return Ok(copies);
    }
    let item = Item::of(alloc, value)?;
    for _receiver in arch.receivers(port) {
        copies.push(item.copy()?)?;
    }
    Ok(copies)
}

/// The empty queue of a port.
fn queue_of(alloc: Global, arch: &Arch, id: PortId) -> Result<WaitingQueue, NoMemory>
    requires { id.0 < length arch.now.ports }
    ensures { IfOk result (λ queue. IsSomeAnd (slice_get arch.now.ports id.0) (λ port. queue ≡ opening_queue arch.now id port)) }
{
    let port = &arch.ports()[id.0 as usize];
    let all = port.all && !is_data_port(port.kind);
    let whole = all || is_device(role_of(arch, port.owner));
    WaitingQueue::new(alloc, port.size, whole, arch.has_sender(id))
}

/// Whether the domain itself may do this.
fn allows_as(arch: &Arch, who: PdId, role: Role, thread: &Thread, what: &What) -> bool
    requires { NamesPorts arch.now what.now }
    ensures { IsTrue result ↔ AllowsAs arch.now who role thread.now what.now }
{
    match role {
        Role::Device => device_allows(arch, who, what),
        Role::Periodic | Role::Sporadic => thread.allows(arch, who, role, what),
    }
}

/// Whether a device may do this.
fn device_allows(arch: &Arch, who: PdId, what: &What) -> bool
    requires { NamesPorts arch.now what.now }
    ensures { IsTrue result ↔ DeviceAllows arch.now who what.now }
{
    match what {
        What::Receive(port, _) => is_port_of(arch, who, false, *port),
        What::Release(port, value) => {
            is_port_of(arch, who, true, *port) && is_value_of_port(arch, *port, value)
        }
        _ => false,
    }
}
