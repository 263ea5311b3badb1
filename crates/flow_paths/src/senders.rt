//! The search for the sources of a domain.

ghost use Rattle.std.specs.Prelude.{◌≡◌, ◌<◌, ◌↔◌, ℕ, true, false, IfOk, IfSome, IfNone, length, option_map};
ghost use Rattle.std.specs.List.{slice_get};
ghost use Rattle.flow_paths.specs.Sources.{has, owner_of, IsSource, AreSources};
ghost use Rattle.flow_paths.specs.Search.{LeadsIn, Feeds, StaysWithin, IsClosed};

use crate::PdSet;
use arch_model::{Arch, Link, PdId, PortId};
use hw_text::NoMemory;
use std::alloc::Global;

/// The domains from which a list of links leads, end to end, to the domain, and the domain itself.
pub fn sources(alloc: Global, arch: &Arch, pd: PdId) -> Result<PdSet, NoMemory>
    requires { pd.0 < length arch.now.pds }
    ensures { IfOk result (λ set. AreSources arch.now pd.0 set) }
{
    let mut set = PdSet::none(alloc, arch.pds().len())?;
    set.add(pd);
    while let Some(sender) = missing(arch, &set) {
        set.add(sender);
    }
    Ok(set)
}

/// A domain that is no member, and from which a link leads to one.
fn missing(arch: &Arch, set: &PdSet) -> Option<PdId>
    ensures within { IfSome result (λ sender. sender.0 < length arch.now.pds) }
    ensures new { IfSome result (λ sender. has set.now sender.0 ≡ false) }
    ensures feeds { IfSome result (λ sender. Feeds arch.now set.now sender.0) }
    ensures closed { IfNone result (IsClosed arch.now set.now) }
{
    for link in arch.links() {
        if let Some(sender) = stray(arch, set, link) {
            return Some(sender);
        }
    }
    None
}

/// The domain from which the link leads, where that is no member and the link leads to one.
fn stray(arch: &Arch, set: &PdSet, link: &Link) -> Option<PdId>
    ensures within { IfSome result (λ sender. sender.0 < length arch.now.pds) }
    ensures new { IfSome result (λ sender. has set.now sender.0 ≡ false) }
    ensures leads { IfSome result (λ sender. LeadsIn arch.now set.now link.now sender.0) }
    ensures stays { IfNone result (StaysWithin arch.now set.now link.now) }
{
    let sender = owner(arch, link.from)?;
    let receiver = owner(arch, link.to)?;
    if set.has(receiver) && !set.has(sender) {
        return Some(sender);
    }
    None
}

/// The domain of a port.
fn owner(arch: &Arch, port: PortId) -> Option<PdId>
    ensures owner { option_map (λ pd. pd.0) result ≡ owner_of arch.now port }
    ensures within { IfSome result (λ pd. pd.0 < length arch.now.pds) }
{
    match arch.ports().get(port.0 as usize) {
        Some(port) => Some(port.owner),
        None => None,
    }
}
