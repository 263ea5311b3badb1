//! The condition that properties in their places have values that they may have.

ghost use Rattle.std.specs.Prelude.{◌≡◌, None, IfOk};
ghost use Rattle.aadl_names.specs.declared.associations.AssociationRow.{AssociationRow as AssociationValue};
ghost use Rattle.aadl_names.specs.Offences.{earliest_from};
ghost use Rattle.aadl_places.specs.declared.bad_values.BadValues.{BadValues as BadValuesValue};
ghost use Rattle.aadl_places.specs.BadValues.{bound_to, is_no_processor, is_misbound, is_bad, bad_property, bad_properties};

use crate::property_places::{has_effect, is_of};
use crate::site::{component_category, referred_from};
use aadl_names::{AssociationRow, Element, Scope, Tables, Test, first_offence, named};
use aadl_tree::Category;
use aadl_values::{Property, property_named, reference_of, sole_value};
use hw_text::{Code, NoMemory, Refusal};
use std::alloc::Global;

/// The first property in its place with a value that it may not have (BadProperty).
pub fn first_bad_property(alloc: Global, scope: &Scope<'_>) -> Result<Option<Refusal>, NoMemory>
    ensures { IfOk result (λ first. first ≡ earliest_from None (bad_properties scope.now.references.now scope.now.resolved.now scope.now.tables.now)) }
{
    let test = BadValues { scope: *scope };
    first_offence(alloc, &test, scope.tables.associations.rows(), None)
}

/// The test for such properties.
#[derive(Clone, Copy)]
struct BadValues<'a> {
    scope: Scope<'a>,
}

impl<'a> Test<AssociationRow<'a>> for BadValues<'a> {
    ghost offence_of = { λ (test : BadValuesValue) (a : AssociationValue). bad_property test.scope.references.now test.scope.resolved.now test.scope.tables.now a };

    fn offence(
        &self,
        alloc: Global,
        row: &AssociationRow<'a>,
    ) -> Result<Option<Refusal>, NoMemory> {
        bad_property(alloc, &self.scope, row)
    }
}

fn bad_property(
    alloc: Global,
    scope: &Scope<'_>,
    row: &AssociationRow<'_>,
) -> Result<Option<Refusal>, NoMemory>
    ensures { IfOk result (λ found. found ≡ bad_property scope.now.references.now scope.now.resolved.now scope.now.tables.now row.now) }
{
    let name = &row.association.get().property;
    let Some(property) = property_named(name) else {
        return Ok(None);
    };
    if is_bad(alloc, scope, property, row)? {
        let word = name.text(alloc)?;
        Ok(Some(named(Code::ModelBadProperty, name.first.place, word)))
    } else {
        Ok(None)
    }
}

fn is_bad(
    alloc: Global,
    scope: &Scope<'_>,
    property: Property,
    row: &AssociationRow<'_>,
) -> Result<bool, NoMemory>
    ensures { IfOk result (λ bad. bad ≡ is_bad scope.now.references.now scope.now.resolved.now scope.now.tables.now property row.now) }
{
    if !has_effect(alloc, scope, property, row)? {
        return Ok(false);
    }
    let suits = property.suits(alloc, row.association.get())?;
    Ok(!suits || is_misbound(scope, property, row))
}

/// Whether processes are bound to what is no processor.
fn is_misbound(scope: &Scope<'_>, property: Property, row: &AssociationRow<'_>) -> bool
    ensures { result ≡ is_misbound scope.now.references.now scope.now.resolved.now scope.now.tables.now property row.now }
{
    match property {
        Property::ActualProcessorBinding => is_no_processor(scope.tables, bound_to(scope, row)),
        _ => false,
    }
}

/// What the one `reference` of the value leads to.
fn bound_to(scope: &Scope<'_>, row: &AssociationRow<'_>) -> Option<Element>
    ensures { result ≡ bound_to scope.now.references.now scope.now.resolved.now scope.now.tables.now row.now }
{
    let path = reference_of(sole_value(row.association.get())?)?;
    scope.path(referred_from(row.holder), path)
}

fn is_no_processor(tables: &Tables<'_>, site: Option<Element>) -> bool
    ensures { result ≡ is_no_processor tables.now site }
{
    match site {
        Some(found) => !is_of(Category::Processor, component_category(tables, found)),
        None => false,
    }
}
