//! References that lead to nothing.

ghost use Rattle.std.specs.Prelude.{◌≡◌, None, IfOk};
ghost use Rattle.aadl_names.specs.Offences.{earliest_from};
ghost use Rattle.aadl_structure.specs.Unknown.{unknown_offences};

use crate::lookups::{Classes, Destinations, Mentioned, Payloads, Sources, Types};
use crate::mentions::mentions;
use aadl_names::{Scope, first_offence};
use hw_text::{NoMemory, Refusal};
use std::alloc::Global;

/// The first reference that leads to nothing.
#[tactic(auto, using(crate::proofs::Earliest::earliest_append))]
pub fn first_unknown(alloc: Global, scope: &Scope<'_>) -> Result<Option<Refusal>, NoMemory>
    ensures { IfOk result (λ first. first ≡ earliest_from None (unknown_offences scope.now.references.now scope.now.resolved.now scope.now.tables.now)) }
{
    let scope = *scope;
    let tables = scope.tables;
    let connections = tables.connections.rows();
    let mentions = mentions(alloc, &scope)?;
    let first = first_offence(alloc, &Payloads { scope }, tables.features.rows(), None)?;
    let first = first_offence(
        alloc,
        &Classes { scope },
        tables.subcomponents.rows(),
        first,
    )?;
    let first = first_offence(
        alloc,
        &Types { scope },
        tables.implementations.rows(),
        first,
    )?;
    let first = first_offence(alloc, &Sources { scope }, connections, first)?;
    let first = first_offence(alloc, &Destinations { scope }, connections, first)?;
    let first = first_offence(alloc, &Mentioned { scope }, mentions.rows(), first)?;
    Ok(first)
}
