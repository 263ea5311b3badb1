//! Which associations of properties are ignored.

ghost use Rattle.std.specs.Prelude.{◌≡◌, IfOk};
ghost use Rattle.std.specs.List.{list_any};
ghost use Rattle.aadl_places.specs.Notes.{leads_elsewhere, is_misplaced, if_ignored, ignored_associations};

use crate::property_places::leads_to_place;
use crate::site::sites;
use aadl_names::{AssociationRow, Element, Held, Scope, Tables};
use aadl_tree::Association;
use aadl_values::{Property, property_named};
use hw_text::{NoMemory, Rows};
use std::alloc::Global;

/// The associations of properties that are outside the table, or in another place.
pub fn ignored_associations<'a>(
    alloc: Global,
    scope: &Scope<'a>,
) -> Result<Rows<Held<'a, Association>>, NoMemory>
    ensures { IfOk result (λ ignored. ignored ≡ ignored_associations scope.now.references.now scope.now.resolved.now scope.now.tables.now) }
{
    let mut ignored = Rows::new(alloc);
    for row in scope.tables.associations.rows() {
        let association = row.association.get();
        if is_misplaced(alloc, scope, row, property_named(&association.property))? {
            ignored.push(Held::new(association))?;
        }
    }
    Ok(ignored)
}

/// Whether an association of this property stands in another place, also if by one path alone.
fn is_misplaced(
    alloc: Global,
    scope: &Scope<'_>,
    row: &AssociationRow<'_>,
    property: Option<Property>,
) -> Result<bool, NoMemory>
    ensures { IfOk result (λ misplaced. misplaced ≡ is_misplaced scope.now.references.now scope.now.resolved.now scope.now.tables.now row.now property) }
{
    match property {
        Some(own) => {
            let sites = sites(alloc, scope, row)?;
            Ok(is_elsewhere_among(scope.tables, own, sites.rows()))
        }
        None => Ok(true),
    }
}

fn is_elsewhere_among(tables: &Tables<'_>, property: Property, sites: &[Option<Element>]) -> bool
    ensures { result ≡ list_any (leads_elsewhere tables.now property) sites.now }
{
    for &site in sites {
        if !leads_to_place(tables, property, site) {
            return true;
        }
    }
    false
}
