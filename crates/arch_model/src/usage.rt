//! What a domain uses a port for.

ghost use Rattle.std.specs.Prelude.{◌≡◌};
ghost use Rattle.arch_model.specs.Usage.{has_receiver, has_sender, is_linked, usage_if};

use crate::{Kind, Link, PortId};

/// What the services of a domain use one of its ports for (this project's own).
#[derive(Clone, Copy, Debug, PartialEq, Eq)]
pub enum Usage {
    /// Items that a link brings wait there: a connected event or event data port.
    Queued,
    /// The last value that a link brings is kept: a connected data port.
    Sampled,
    /// What leaves it goes along a link: a connected out port.
    Sent,
    /// No link begins or ends there.
    Unlinked,
}

/// What the domain of such a port uses it for.
pub fn usage_if(linked: bool, outward: bool, kind: Kind) -> Usage
    ensures { result ≡ usage_if linked outward kind }
{
    if !linked {
        return Usage::Unlinked;
    }
    if outward {
        return Usage::Sent;
    }
    match kind {
        Kind::Sampled => Usage::Sampled,
        Kind::Event | Kind::EventItem => Usage::Queued,
    }
}

/// Whether a link begins at an out port, or ends at an in port.
pub fn is_linked(links: &[Link], port: PortId, outward: bool) -> bool
    ensures { result ≡ is_linked links.now port outward }
{
    if outward {
        has_receiver(links, port)
    } else {
        has_sender(links, port)
    }
}

fn has_receiver(links: &[Link], port: PortId) -> bool
    ensures { result ≡ has_receiver links.now port }
{
    links.iter().any(|link| link.from == port)
}

/// Whether a link ends at the port.
pub fn has_sender(links: &[Link], port: PortId) -> bool
    ensures { result ≡ has_sender links.now port }
{
    links.iter().any(|link| link.to == port)
}
