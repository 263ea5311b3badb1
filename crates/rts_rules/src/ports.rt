//! What is asked of domains and their ports.

ghost use Rattle.std.specs.Prelude.{◌≡◌, ◌↔◌, ◌<◌, ◌==◌, IsTrue, IsSomeAnd, length, slice_get};
ghost use Rattle.arch_model.specs.Usage.{is_queued, is_sampled};
ghost use Rattle.rts_rules.specs.Domain.{IsPortOf};
ghost use Rattle.rts_rules.specs.Services.{is_device};

use arch_model::{Arch, PdId, PortId, Role, Usage};

/// Whether the port belongs to the domain and leads that way.
pub fn is_port_of(arch: &Arch, who: PdId, outward: bool, port: PortId) -> bool
    requires { port.0 < length arch.now.ports }
    ensures { IsTrue result ↔ IsPortOf arch.now who outward port }
{
    let port = &arch.ports()[port.0 as usize];
    port.owner == who && port.outward == outward
}

/// Whether the port belongs to the domain.
pub fn is_owned(arch: &Arch, who: PdId, id: PortId) -> bool
    requires { id.0 < length arch.now.ports }
    ensures { IsSomeAnd (slice_get arch.now.ports id.0) (λ port. result ≡ (port.owner.0 == who.0)) }
{
    arch.ports()[id.0 as usize].owner == who
}

/// What the domain is.
pub fn role_of(arch: &Arch, who: PdId) -> Role
    requires { who.0 < length arch.now.pds }
    ensures { IsSomeAnd (slice_get arch.now.pds who.0) (λ pd. pd.role ≡ result) }
{
    arch.pds()[who.0 as usize].role
}

pub fn is_device(role: Role) -> bool
    ensures { result ≡ is_device role }
{
    match role {
        Role::Device => true,
        Role::Periodic | Role::Sporadic => false,
    }
}

/// Whether items that a link brings wait at such a port.
pub fn is_queued(usage: Usage) -> bool
    ensures { result ≡ is_queued usage }
{
    match usage {
        Usage::Queued => true,
        Usage::Sampled | Usage::Sent | Usage::Unlinked => false,
    }
}

/// Whether the last value that a link brings is kept at such a port.
pub fn is_sampled(usage: Usage) -> bool
    ensures { result ≡ is_sampled usage }
{
    match usage {
        Usage::Sampled => true,
        Usage::Queued | Usage::Sent | Usage::Unlinked => false,
    }
}
