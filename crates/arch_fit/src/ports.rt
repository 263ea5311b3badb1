//! Which ports fit one another.

ghost use Rattle.std.specs.Prelude.{◌≤◌, All, AllPairs, IsTrue};
ghost use Rattle.arch_model.specs.Arch.{IsPort, HaveOwnNames};
ghost use Rattle.arch_model.specs.declared.port.Port.{Port as PortValue};

use arch_model::{EVENT_TYPE, Kind, Pd, Port, TypeRow};

/// Whether each of these ports is one.
pub fn are_ports(pds: &[Pd], types: &[TypeRow], ports: &[Port]) -> bool
    ensures { IsTrue result → All (IsPort pds.now types.now) ports.now }
{
    match ports {
        [port, rest @ ..] => is_port(pds, types, port) && are_ports(pds, types, rest),
        [] => true,
    }
}

/// Whether the port's domain and type are there, and its room is as its kind asks.
fn is_port(pds: &[Pd], types: &[TypeRow], port: &Port) -> bool
    ensures { IsTrue result → IsPort pds.now types.now port.now }
{
    (port.owner.0 as usize) < pds.len()
        && (port.ty as usize) < types.len()
        && (1..=64).contains(&port.size)
        && (port.kind != Kind::Sampled || port.size == 1)
        && (port.kind == Kind::Event) == (port.ty == EVENT_TYPE)
}

/// Whether these ports go by their domains.
pub fn go_by_domains(ports: &[Port]) -> bool
    ensures { IsTrue result → AllPairs (λ (port : PortValue) (later : PortValue). port.owner.0 ≤ later.owner.0) ports.now }
{
    match ports {
        [port, rest @ ..] => goes_before(port, rest) && go_by_domains(rest),
        [] => true,
    }
}

fn goes_before(port: &Port, others: &[Port]) -> bool
    ensures { IsTrue result → All (λ (later : PortValue). port.now.owner.0 ≤ later.owner.0) others.now }
{
    match others {
        [later, rest @ ..] => port.owner.0 <= later.owner.0 && goes_before(port, rest),
        [] => true,
    }
}

/// Whether no two of these ports are of one domain and have one name.
pub fn have_own_names(ports: &[Port]) -> bool
    ensures { IsTrue result → AllPairs HaveOwnNames ports.now }
{
    match ports {
        [port, rest @ ..] => has_own_name(port, rest) && have_own_names(rest),
        [] => true,
    }
}

fn has_own_name(port: &Port, others: &[Port]) -> bool
    ensures { IsTrue result → All (HaveOwnNames port.now) others.now }
{
    match others {
        [other, rest @ ..] => are_apart(port, other) && has_own_name(port, rest),
        [] => true,
    }
}

fn are_apart(port: &Port, other: &Port) -> bool
    ensures { IsTrue result → HaveOwnNames port.now other.now }
{
    port.owner.0 != other.owner.0 || port.name.rows() != other.name.rows()
}
