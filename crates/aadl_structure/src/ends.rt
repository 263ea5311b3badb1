//! Names behind `end` that differ from the declared ones.

ghost use Rattle.std.specs.Prelude.{◌≡◌, None, IfOk};
ghost use Rattle.aadl_names.specs.Offences.{earliest_from};
ghost use Rattle.aadl_structure.specs.Ends.{end_offence, package_end, type_end, implementation_end, end_offences};

use crate::telling::refused;
use aadl_names::{Held, Scope, Test, first_offence};
use aadl_tree::{ComponentType, Implementation, Package};
use hw_text::{Code, NoMemory, Place, Refusal};
use std::alloc::Global;
use std::slice;

#[derive(Clone, Copy)]
struct PackageEnd;

#[derive(Clone, Copy)]
struct TypeEnd;

#[derive(Clone, Copy)]
struct ImplementationEnd;

/// The first name behind `end` that is another than that of what it closes.
#[tactic(auto, using(crate::proofs::Earliest::earliest_append))]
pub fn first_wrong_end(
    alloc: Global,
    model: &Package,
    scope: &Scope<'_>,
) -> Result<Option<Refusal>, NoMemory>
    ensures { IfOk result (λ first. first ≡ earliest_from None (end_offences model.now scope.now.tables.now)) }
{
    let tables = scope.tables;
    let first = first_offence(alloc, &PackageEnd, slice::from_ref(model), None)?;
    let first = first_offence(alloc, &TypeEnd, tables.types.rows(), first)?;
    let first = first_offence(
        alloc,
        &ImplementationEnd,
        tables.implementations.rows(),
        first,
    )?;
    Ok(first)
}

impl Test<Package> for PackageEnd {
    ghost offence_of = { λ _. package_end };

    fn offence(&self, alloc: Global, row: &Package) -> Result<Option<Refusal>, NoMemory> {
        let declared = row.name.text(alloc)?;
        let end = row.end_name.text(alloc)?;
        closing(alloc, declared.rows(), end.rows(), row.end_name.first.place)
    }
}

impl<'a> Test<Held<'a, ComponentType>> for TypeEnd {
    ghost offence_of = { λ _. type_end };

    fn offence(
        &self,
        alloc: Global,
        row: &Held<'a, ComponentType>,
    ) -> Result<Option<Refusal>, NoMemory> {
        let declared = row.get();
        let end = &declared.end_name;
        closing(alloc, declared.name.name.rows(), end.name.rows(), end.place)
    }
}

impl<'a> Test<Held<'a, Implementation>> for ImplementationEnd {
    ghost offence_of = { λ _. implementation_end };

    fn offence(
        &self,
        alloc: Global,
        row: &Held<'a, Implementation>,
    ) -> Result<Option<Refusal>, NoMemory> {
        let implementation = row.get();
        let declared = implementation.name.text(alloc)?;
        let end = implementation.end_name.text(alloc)?;
        closing(
            alloc,
            declared.rows(),
            end.rows(),
            implementation.end_name.component_type.place,
        )
    }
}

/// The refusal of a name behind `end`, where it is not the declared one.
fn closing(
    alloc: Global,
    declared: &[u8],
    end: &[u8],
    place: Place,
) -> Result<Option<Refusal>, NoMemory>
    ensures { IfOk result (λ offence. offence ≡ end_offence declared.now end.now place) }
{
    if end == declared {
        return Ok(None);
    }
    refused(alloc, Code::ModelEndName, place, end)
}
