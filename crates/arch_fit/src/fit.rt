//! Which tables fit one another.

ghost use Rattle.std.specs.Prelude.{◌≡◌, ◌≢◌, ◌≤◌, All, AllPairs, IsTrue, length};
ghost use Rattle.arch_model.specs.Arch.{HaveOwnNames, IsDomain, IsWellFormed};
ghost use Rattle.arch_model.specs.BaseTypes.{base_rows};
ghost use Rattle.arch_model.specs.declared.pd.Pd.{Pd as PdValue};
ghost use Rattle.arch_model.specs.declared.port.Port.{Port as PortValue};

use crate::{domains, links, ports};
use arch_model::{ArchParts, Pd, Port, base_is_table};

/// Whether tables without declared types, with 32 ports at most in all, fit one another.
pub fn is_fit(parts: &ArchParts) -> bool
    requires { parts.now.types ≡ base_rows }
    ensures { IsTrue result → IsWellFormed parts.now }
{
    base_is_table();
    let types = parts.types.rows();
    let ports = parts.ports.rows();
    parts.frame > 0
        && parts.origins.len() == parts.pds.len()
        && domains_fit(parts.pds.rows())
        && ports.len() <= 32
        && ports::are_ports(parts.pds.rows(), types, ports)
        && ports_fit(ports)
        && links::are_links(ports, types, parts.links.rows())
        && links::go_by_ports(parts.links.rows())
        && links::have_one_sender(parts.links.rows())
}

/// Whether these are few domains that fit one another.
fn domains_fit(pds: &[Pd]) -> bool
    ensures few { IsTrue result → length pds.now ≤ 60 }
    ensures each { IsTrue result → All IsDomain pds.now }
    ensures names { IsTrue result → AllPairs (λ (pd : PdValue) (other : PdValue). pd.name ≢ other.name) pds.now }
{
    pds.len() <= 60 && domains::are_domains(pds) && domains::have_own_names(pds)
}

/// Whether these ports go by their domains and have names of their own there.
fn ports_fit(ports: &[Port]) -> bool
    ensures order { IsTrue result → AllPairs (λ (port : PortValue) (later : PortValue). port.owner.0 ≤ later.owner.0) ports.now }
    ensures names { IsTrue result → AllPairs HaveOwnNames ports.now }
{
    ports::go_by_domains(ports) && ports::have_own_names(ports)
}
