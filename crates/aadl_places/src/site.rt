//! What the associations of properties speak of.

ghost use Rattle.std.specs.Prelude.{◌≡◌, map, option_copied, IfOk};
ghost use Rattle.aadl_places.specs.Sites.{feature_at, subcomponent_at, component_category, applied_from, referred_from, led_to, sites_of};

use aadl_names::{AssociationRow, ClassRow, Element, Scope, Tables, category_of};
use aadl_tree::{Category, Feature, Path, Subcomponent};
use hw_text::{NoMemory, Rows};
use std::alloc::Global;

/// What an association stands at, or what each path of its `applies to` leads to.
pub fn sites(
    alloc: Global,
    scope: &Scope<'_>,
    row: &AssociationRow<'_>,
) -> Result<Rows<Option<Element>>, NoMemory>
    ensures { IfOk result (λ sites. sites ≡ sites_of scope.now.references.now scope.now.resolved.now scope.now.tables.now row.now) }
{
    let paths = row.association.get().applies_to.rows();
    if paths.is_empty() {
        let mut sites = Rows::new(alloc);
        sites.push(Some(row.holder))?;
        return Ok(sites);
    }
    let from = applied_from(alloc, scope, row.holder)?;
    led_to_each(alloc, scope, from, paths)
}

fn led_to_each(
    alloc: Global,
    scope: &Scope<'_>,
    from: Option<ClassRow>,
    paths: &[Path],
) -> Result<Rows<Option<Element>>, NoMemory>
    ensures { IfOk result (λ sites. sites ≡ map (led_to scope.now.references.now scope.now.resolved.now scope.now.tables.now from) paths.now) }
{
    let mut sites = Rows::new(alloc);
    for path in paths {
        sites.push(led_to(scope, from, path))?;
    }
    Ok(sites)
}

fn led_to(scope: &Scope<'_>, from: Option<ClassRow>, path: &Path) -> Option<Element>
    ensures { result ≡ led_to scope.now.references.now scope.now.resolved.now scope.now.tables.now from path.now }
{
    match from {
        Some(within) => scope.path(within, path),
        None => None,
    }
}

/// From where paths of `applies to` count.
fn applied_from(
    alloc: Global,
    scope: &Scope<'_>,
    holder: Element,
) -> Result<Option<ClassRow>, NoMemory>
    ensures { IfOk result (λ from. from ≡ applied_from scope.now.references.now scope.now.tables.now holder) }
{
    match holder {
        Element::Type(number) => Ok(Some(ClassRow::Type(number))),
        Element::Implementation(number) => Ok(Some(ClassRow::Implementation(number))),
        Element::Subcomponent(owner, number) => {
            match subcomponent_at(scope.tables, owner, number) {
                Some(found) => {
                    let asked = found.category;
                    scope
                        .references
                        .means(alloc, scope.tables, asked, &found.class)
                }
                None => Ok(None),
            }
        }
        Element::Feature(_, _) | Element::Connection(_, _) => Ok(None),
    }
}

/// From where paths of `reference` count.
pub fn referred_from(holder: Element) -> ClassRow
    ensures { result ≡ referred_from holder }
{
    match holder {
        Element::Type(number) | Element::Feature(number, _) => ClassRow::Type(number),
        Element::Implementation(number)
        | Element::Subcomponent(number, _)
        | Element::Connection(number, _) => ClassRow::Implementation(number),
    }
}

/// The category of a type, an implementation or a subcomponent.
pub fn component_category(tables: &Tables<'_>, element: Element) -> Option<Category>
    ensures { result ≡ component_category tables.now element }
{
    match element {
        Element::Type(number) => category_of(tables, ClassRow::Type(number)),
        Element::Implementation(number) => category_of(tables, ClassRow::Implementation(number)),
        Element::Subcomponent(owner, number) => {
            match subcomponent_at(tables, owner, number) {
                Some(found) => Some(found.category),
                None => None,
            }
        }
        Element::Feature(_, _) | Element::Connection(_, _) => None,
    }
}

/// The feature of this number of a type.
pub fn feature_at<'a>(tables: &Tables<'a>, owner: usize, number: usize) -> Option<&'a Feature>
    ensures { option_copied result ≡ feature_at tables.now owner number }
{
    tables
        .types
        .rows()
        .get(owner)?
        .get()
        .features
        .rows()
        .get(number)
}

/// The subcomponent of this number of an implementation.
fn subcomponent_at<'a>(tables: &Tables<'a>, owner: usize, number: usize) -> Option<&'a Subcomponent>
    ensures { option_copied result ≡ subcomponent_at tables.now owner number }
{
    tables
        .implementations
        .rows()
        .get(owner)?
        .get()
        .subcomponents
        .rows()
        .get(number)
}
