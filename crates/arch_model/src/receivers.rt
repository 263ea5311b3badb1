//! The receivers of a port, one after another.

ghost use Rattle.std.specs.Prelude.{◌≡◌, ◌<◌, ◌==◌, length, slice_index_or, IfOk};
ghost use Rattle.std.specs.Iterator.{YieldsFirst, item_count};
ghost use Rattle.arch_model.specs.LookUp.{receivers_of};
ghost use Rattle.arch_model.specs.Receivers.{receivers_left, AreReceivers};

use crate::{Link, PortId, PortIdList};
use hw_text::NoMemory;
use std::alloc::Global;
use std::marker::Model;

/// Goes over the ports at which the links of one port end.
#[derive(Drop)]
pub struct Receivers<'a> {
    ports: &'a [PortId],
}

impl<'a> Receivers<'a> {
    /// Goes over these ports.
    pub fn new(ports: &'a [PortId]) -> Self
        ensures { receivers_left result ≡ ports.now }
    {
        Receivers { ports }
    }

    /// Whether none is left.
    pub fn is_empty(&self) -> bool
        ensures { result ≡ (length (receivers_left self.now) == 0) }
    {
        self.ports.is_empty()
    }
}

impl<'a> Iterator for Receivers<'a> {
    type Item = PortId;

    ghost next_gives = { YieldsFirst receivers_left };

    ghost remaining = { item_count receivers_left };

    fn next(&mut self) -> Option<PortId> {
        let (port, rest) = self.ports.split_first()?;
        self.ports = rest;
        Some(*port)
    }
}

/// The receivers of each port, by its number.
#[derive(Debug, Drop)]
pub struct ReceiverTable {
    lists: Vec<PortIdList>,
}

impl Model for ReceiverTable {
    ghost use Rattle.std.specs.Prelude.{List};
    ghost use Rattle.arch_model.specs.declared.id.PortId.{PortId};

    ghost Value = { List (List PortId) };

    ghost view = { λ t. t.lists.items };
}

impl ReceiverTable {
    /// The receivers of so many ports, by these links.
    pub fn of(alloc: Global, ports: usize, links: &[Link]) -> Result<Self, NoMemory>
        ensures { IfOk result (λ table. AreReceivers links.now ports table) }
    {
        let mut lists = Vec::with_capacity(alloc, ports)?;
        for _port in 0..ports {
            lists.push(PortIdList::new(alloc))?;
        }
        for link in links {
            if (link.from.0 as usize) < ports {
                lists[link.from.0 as usize].push(link.to)?;
            }
        }
        Ok(ReceiverTable { lists })
    }

    /// The receivers of a port.
    pub fn list(&self, port: PortId) -> &[PortId]
        requires { port.0 < length self.now }
        ensures { slice_index_or self.now port.0 result.now ≡ result.now }
    {
        self.lists[port.0 as usize].rows()
    }
}
