//! Names that are given twice.

ghost use Rattle.std.specs.Prelude.{◌≡◌, ◌++◌, None, IfOk};
ghost use Rattle.aadl_names.specs.Offences.{earliest_from};
ghost use Rattle.aadl_structure.specs.Duplicates.{member_offences, duplicate_offences};

use crate::repeats::first_repeated;
use aadl_names::{PartRow, Repeated, Scope};
use aadl_tree::{Connection, Subcomponent};
use hw_text::{NoMemory, Refusal};
use std::alloc::Global;

/// The first name that an earlier type, implementation, feature or member has.
#[tactic(auto, using(crate::proofs::Earliest::earliest_append))]
pub fn first_duplicate(alloc: Global, scope: &Scope<'_>) -> Result<Option<Refusal>, NoMemory>
    ensures { IfOk result (λ first. first ≡ earliest_from None (duplicate_offences scope.now.tables.now)) }
{
    let tables = scope.tables;
    let first = first_repeated(alloc, tables.types.rows(), None)?;
    let first = first_repeated(alloc, tables.implementations.rows(), first)?;
    let first = first_repeated(alloc, tables.features.rows(), first)?;
    let subcomponents = tables.subcomponents.rows();
    let first = first_member(alloc, subcomponents, tables.connections.rows(), first)?;
    Ok(first)
}

/// The first member whose name an earlier one has, or the refusal that is known before it.
fn first_member(
    alloc: Global,
    subcomponents: &[PartRow<'_, Subcomponent>],
    connections: &[PartRow<'_, Connection>],
    known: Option<Refusal>,
) -> Result<Option<Refusal>, NoMemory>
    ensures { IfOk result (λ first. first ≡ earliest_from known (member_offences subcomponents.now connections.now)) }
{
    let repeated = Repeated::new(alloc, known).with(alloc, subcomponents)?;
    let repeated = repeated.with(alloc, connections)?;
    Ok(repeated.first)
}
