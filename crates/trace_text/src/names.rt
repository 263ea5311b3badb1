//! The names of domains, ports and clauses, by their numbers.

ghost use Rattle.std.specs.Prelude.{◌≡◌, ◌<◌, length};
ghost use Rattle.trace_text.specs.Lines.{clause_name, domain_name, port_name};

use arch_model::{Arch, PdId, PortId};
use gumbo_check::ContractList;

/// The name of a domain.
pub fn domain_name(arch: &Arch, who: PdId) -> &[u8]
    ensures { result.now ≡ domain_name arch.now who }
{
    match arch.pds().get(who.0 as usize) {
        Some(pd) => pd.name.rows(),
        None => &[],
    }
}

/// The name of a port.
pub fn port_name(arch: &Arch, port: PortId) -> &[u8]
    ensures { result.now ≡ port_name arch.now port }
{
    match arch.ports().get(port.0 as usize) {
        Some(end) => end.name.rows(),
        None => &[],
    }
}

/// The name of a clause of the domain's contract.
pub fn clause_name(contracts: &ContractList, who: PdId, clause: u32) -> &[u8]
    requires { who.0 < length contracts.now }
    ensures { result.now ≡ clause_name contracts.now who clause }
{
    match contracts.of(who).clauses().get(clause as usize) {
        Some(clause) => clause.name.rows(),
        None => &[],
    }
}
