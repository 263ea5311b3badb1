//! The order in which a domain receives.

ghost use Rattle.std.specs.Prelude.{◌≡◌, ◌<◌, ◌==◌, ◌&&◌, ◌++◌, IfOk, OnOk, Bool, IsSomeAnd, slice_get, length};
ghost use Rattle.arch_model.specs.Usage.{ports_used, usage_of, is_queued, receive_order};
ghost use Rattle.rts_rules.specs.Services.{is_wanted};

use crate::ports::{is_owned, is_queued, is_sampled};
use arch_model::{Arch, PdId, PortId, PortIdList, Usage};
use hw_text::NoMemory;
use std::alloc::Global;

/// The ports at which a domain receives, in order.
#[derive(Drop)]
pub struct Order {
    pub ports: PortIdList,
    /// How many of them are event and event data ports.
    pub queued: usize,
}

impl Order {
    /// The order of a domain.
    #[tactic(auto, unfolding(arch_model::specs::Usage::receive_order))]
    pub fn of(alloc: Global, arch: &Arch, who: PdId) -> Result<Order, NoMemory>
        ensures ports { IfOk result (λ order. order.ports ≡ receive_order arch.now who) }
        ensures queued { IfOk result (λ order. order.queued ≡ length (ports_used arch.now who is_queued)) }
    {
        let mut ports = PortIdList::new(alloc);
        add_ports(&mut ports, arch, who, false)?;
        let queued = ports.len();
        add_ports(&mut ports, arch, who, true)?;
        Ok(Order { ports, queued })
    }
}

/// Appends the connected data ports at which a domain receives, or the others.
fn add_ports(ports: &mut PortIdList, arch: &Arch, who: PdId, sampled: bool) -> Result<(), NoMemory>
    ensures { OnOk result (ports.new ≡ ports.old ++ ports_used arch.now who (is_wanted sampled)) }
{
    for number in 0..arch.port_count() {
        if is_at(arch, who, PortId(number), sampled) {
            ports.push(PortId(number))?;
        }
    }
    Ok(())
}

/// Whether the domain receives at the port, which is a data port or is none.
fn is_at(arch: &Arch, who: PdId, id: PortId, sampled: bool) -> bool
    requires { id.0 < length arch.now.ports }
    ensures { IsSomeAnd (slice_get arch.now.ports id.0) (λ port. result ≡ ((port.owner.0 == who.0) && is_wanted sampled (usage_of arch.now.links id port))) }
{
    if !is_owned(arch, who, id) {
        return false;
    }
    is_wanted(sampled, arch.usage(id))
}

fn is_wanted(sampled: bool, usage: Usage) -> bool
    ensures { result ≡ is_wanted sampled usage }
{
    if sampled {
        is_sampled(usage)
    } else {
        is_queued(usage)
    }
}
