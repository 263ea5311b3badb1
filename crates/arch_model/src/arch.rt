//! A well-formed architecture, and its look-ups.

ghost use Rattle.std.specs.Prelude.{◌≡◌, ◌<◌, ◌≤◌, IfOk, IsSomeAnd, length, slice_get};
ghost use Rattle.arch_model.specs.Arch.{IsWellFormed};
ghost use Rattle.arch_model.specs.LookUp.{pd_named, receivers_of};
ghost use Rattle.arch_model.specs.Receivers.{receivers_left};
ghost use Rattle.arch_model.specs.Usage.{has_receiver, has_sender, usage_of};

use crate::name_index::NameIndex;
use crate::receivers::ReceiverTable;
use crate::usage::{has_sender, is_linked, usage_if};
use crate::{
    ArchParts, Link, LinkList, Origin, OriginList, Pd, PdId, PdList, Port, PortId, PortList,
    Receivers, TypeRow, TypeRowList, Usage,
};
use hw_text::{Name, NoMemory};
use std::alloc::Global;
use std::marker::Model;

/// An architecture, which contracts see as its parts.
#[derive(Debug, Drop)]
pub struct Arch {
    pds: PdList,
    ports: PortList,
    links: LinkList,
    types: TypeRowList,
    frame: u64,
    origins: OriginList,
    names: NameIndex,
    receivers: ReceiverTable,
}

impl Model for Arch {
    ghost use Rattle.arch_model.specs.declared.parts.ArchParts.{ArchParts};
    ghost use Rattle.arch_model.specs.Arch.{IsWellFormed};
    ghost use Rattle.arch_model.specs.Receivers.{AreReceivers};
    ghost use Rattle.std.specs.Prelude.{◌≡◌, map, length};

    ghost Value = { ArchParts };

    ghost view = { λ a. record { pds = a.pds; ports = a.ports; links = a.links; types = a.types; frame = a.frame; origins = a.origins } };

    ghost invariant = { λ a. IsWellFormed (record { pds = a.pds; ports = a.ports; links = a.links; types = a.types; frame = a.frame; origins = a.origins })
        × (a.names ≡ map (λ pd. pd.name) a.pds) × AreReceivers a.links (length a.ports) a.receivers };
}

impl Arch {
    /// The architecture of exactly these parts.
    pub fn new(alloc: Global, parts: ArchParts) -> Result<Arch, NoMemory>
        requires { IsWellFormed parts }
        ensures { IfOk result (λ arch. arch ≡ parts) }
    {
        let ArchParts {
            pds,
            ports,
            links,
            types,
            frame,
            origins,
        } = parts;
        let names = NameIndex::of(alloc, pds.rows())?;
        let receivers = ReceiverTable::of(alloc, ports.len(), links.rows())?;
        Ok(Arch {
            pds,
            ports,
            links,
            types,
            frame,
            origins,
            names,
            receivers,
        })
    }

    pub fn pds(&self) -> &[Pd]
        ensures rows { result.now ≡ self.now.pds }
        ensures well_formed { IsWellFormed self.now }
    {
        self.pds.rows()
    }

    pub fn ports(&self) -> &[Port]
        ensures rows { result.now ≡ self.now.ports }
        ensures well_formed { IsWellFormed self.now }
    {
        self.ports.rows()
    }

    /// How many ports there are. Each of at most 60 domains has at most 32.
    pub fn port_count(&self) -> u32
        ensures count { result ≡ length self.now.ports }
        ensures well_formed { IsWellFormed self.now }
    {
        self.ports().len() as u32
    }

    pub fn links(&self) -> &[Link]
        ensures rows { result.now ≡ self.now.links }
        ensures well_formed { IsWellFormed self.now }
    {
        self.links.rows()
    }

    pub fn types(&self) -> &[TypeRow]
        ensures rows { result.now ≡ self.now.types }
        ensures well_formed { IsWellFormed self.now }
    {
        self.types.rows()
    }

    /// The origins of the domains, in their order.
    pub fn origins(&self) -> &[Origin]
        ensures rows { result.now ≡ self.now.origins }
        ensures well_formed { IsWellFormed self.now }
    {
        self.origins.rows()
    }

    /// The frame period, in picoseconds.
    pub fn frame(&self) -> u64
        ensures period { result ≡ self.now.frame }
        ensures well_formed { IsWellFormed self.now }
    {
        self.frame
    }

    /// The domain of this name.
    pub fn pd_named(&self, name: &Name) -> Option<PdId>
        ensures named { result ≡ pd_named self.now.pds name.now }
        ensures well_formed { IsWellFormed self.now }
    {
        match self.names.place(name.rows()) {
            Some(place) => Some(PdId(place as u32)),
            None => None,
        }
    }

    /// The ports that receive what leaves this one, in the order of the links.
    pub fn receivers(&self, port: PortId) -> Receivers<'_>
        requires { port.0 < length self.now.ports }
        ensures receivers { receivers_left result ≡ receivers_of self.now.links port }
        ensures well_formed { IsWellFormed self.now }
    {
        Receivers::new(self.receivers.list(port))
    }

    /// Whether a link begins at the port.
    pub fn has_receiver(&self, port: PortId) -> bool
        requires { port.0 < length self.now.ports }
        ensures receiver { result ≡ has_receiver self.now.links port }
    {
        !self.receivers(port).is_empty()
    }

    /// Whether a link ends at the port.
    pub fn has_sender(&self, port: PortId) -> bool
        ensures sender { result ≡ has_sender self.now.links port }
    {
        has_sender(self.links(), port)
    }

    /// What the domain of a port uses it for.
    pub fn usage(&self, port: PortId) -> Usage
        requires { port.0 < length self.now.ports }
        ensures usage { IsSomeAnd (slice_get self.now.ports port.0) (λ p. result ≡ usage_of self.now.links port p) }
    {
        let end = &self.ports()[port.0 as usize];
        let linked = is_linked(self.links(), port, end.outward);
        usage_if(linked, end.outward, end.kind)
    }
}
