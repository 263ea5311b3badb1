//! The domains and ports that the words of a trace name.

ghost use Rattle.std.specs.Prelude.{◌≡◌, ◌↔◌, ◌<◌, ◌^◌, ◌++◌, ◌∷◌, ℕ, List, true, IsTrue, IfSome, OnSome, IsSomeAnd, slice_get, length};
ghost use Rattle.hw_text.specs.Name.{is_name};
ghost use Rattle.rts_rules.specs.Domain.{IsDevice};
ghost use Rattle.hamr_cli.specs.TracePort.{port_from};
ghost use Rattle.hamr_cli.specs.Trace.{IsNamedDevice, IsNamedPort};
ghost use Rattle.hamr_cli.specs.TraceText.{domain_name, port_name};

use crate::domains::domain_named;
use crate::trace::words::field;
use arch_model::{Arch, Pd, PdId, Port, PortId, Role};

/// The first port of this name that leads out of its owner, or into it.
fn port_named(ports: &[Port], owner: PdId, outward: bool, name: &[u8]) -> Option<PortId>
    requires { length ports.now < 2 ^ 32 }
    ensures place { result ≡ port_from 0 ports.now owner outward name.now }
    ensures name { OnSome result (is_name name.now ≡ true) }
{
    let mut place = 0;
    for port in ports {
        if port.owner == owner && port.outward == outward && port.name.rows() == name {
            return Some(PortId(place));
        }
        place += 1;
    }
    None
}

fn is_device(pds: &[Pd], who: PdId) -> bool
    ensures { IsTrue result ↔ IsSomeAnd (slice_get pds.now who.0) (λ pd. pd.role ≡ Role.Device) }
{
    match pds.get(who.0 as usize) {
        Some(pd) => pd.role == Role::Device,
        None => false,
    }
}

/// The device that is named in front, and what stands behind the space that follows.
pub fn read_device<'a>(arch: &Arch, bytes: &'a [u8]) -> Option<(PdId, &'a [u8])>
    ensures device { IfSome result (λ r. IsNamedDevice arch.now r.0) }
    ensures found { IfSome result (λ r. bytes.now ≡ domain_name arch.now r.0 ++ 32 ∷ r.1.now) }
    ensures only { (who : PdId) (more : List ℕ) → IsNamedDevice arch.now who
        → bytes.now ≡ domain_name arch.now who ++ 32 ∷ more
        → IsSomeAnd result (λ r. (r.0 ≡ who) × (r.1.now ≡ more)) }
{
    let (name, rest) = field(bytes)?;
    let who = domain_named(arch.pds(), name)?;
    if is_device(arch.pds(), who) {
        Some((who, rest))
    } else {
        None
    }
}

/// The port of the domain that is named in front, and what stands behind the space that follows.
pub fn read_port<'a>(
    arch: &Arch,
    who: PdId,
    outward: bool,
    bytes: &'a [u8],
) -> Option<(PortId, &'a [u8])>
    ensures port { IfSome result (λ r. IsNamedPort arch.now who outward r.0) }
    ensures found { IfSome result (λ r. bytes.now ≡ port_name arch.now r.0 ++ 32 ∷ r.1.now) }
    ensures only { (port : PortId) (more : List ℕ) → IsNamedPort arch.now who outward port
        → bytes.now ≡ port_name arch.now port ++ 32 ∷ more
        → IsSomeAnd result (λ r. (r.0 ≡ port) × (r.1.now ≡ more)) }
{
    let (name, rest) = field(bytes)?;
    let port = port_named(arch.ports(), who, outward, name)?;
    Some((port, rest))
}
