//! Models of which not exactly one system is left unused.

ghost use Rattle.std.specs.Prelude.{◌≡◌, None, slice_get, IfOk};
ghost use Rattle.aadl_names.specs.Offences.{earliest_from};
ghost use Rattle.aadl_domains.specs.Roots.{roots_of};
ghost use Rattle.aadl_structure.specs.RootOffences.{unused_offence, root_offences};

use aadl_domains::roots;
use aadl_names::{Scope, Tables, named};
use hw_text::{Code, NoMemory, Place, Refusal, TextBuf};
use std::alloc::Global;

/// The refusal of a model with no root or with several.
pub fn first_wrong_root(alloc: Global, scope: &Scope<'_>) -> Result<Option<Refusal>, NoMemory>
    ensures { IfOk result (λ first. first ≡ earliest_from None (root_offences scope.now.tables.now (roots_of scope.now.tables.now scope.now.resolved.now))) }
{
    let unused = roots(alloc, scope.tables, scope.resolved)?;
    let Some((_, others)) = unused.rows().split_first() else {
        let none = named(Code::ModelNoRoot, Place::START, TextBuf::new(alloc));
        return Ok(Some(none));
    };
    match others.split_first() {
        Some((&second, _)) => unused_offence(alloc, scope.tables, second),
        None => Ok(None),
    }
}

/// The refusal of a second root.
fn unused_offence(
    alloc: Global,
    tables: &Tables<'_>,
    row: usize,
) -> Result<Option<Refusal>, NoMemory>
    ensures { IfOk result (λ offence. offence ≡ unused_offence (slice_get tables.now.implementations row)) }
{
    let Some(implementation) = tables.implementations.rows().get(row) else {
        return Ok(None);
    };
    let name = &implementation.get().name;
    let refusal = named(
        Code::ModelManyRoots,
        name.component_type.place,
        name.text(alloc)?,
    );
    Ok(Some(refusal))
}
