//! Where the properties of the table have their places.

ghost use Rattle.std.specs.Prelude.{◌≡◌, option_copied, IfOk};
ghost use Rattle.std.specs.List.{list_any};
ghost use Rattle.aadl_names.specs.Meanings.{is_of};
ghost use Rattle.aadl_places.specs.PropertyPlaces.{goes_in, has_events, has_queue, is_of_domain, is_queue, is_place_of, leads_to_place, has_effect};

use crate::site::{component_category, feature_at, sites};
use aadl_names::{AssociationRow, ClassRow, Element, Scope, Tables, category_of};
use aadl_tree::{Category, Direction, Feature, PortKind};
use aadl_values::Property;
use hw_text::NoMemory;
use std::alloc::Global;

/// Whether an association of the property has an effect: it stands at a place of it, or one of its
/// paths leads to one.
pub fn has_effect(
    alloc: Global,
    scope: &Scope<'_>,
    property: Property,
    row: &AssociationRow<'_>,
) -> Result<bool, NoMemory>
    ensures { IfOk result (λ effect. effect ≡ has_effect scope.now.references.now scope.now.resolved.now scope.now.tables.now property row.now) }
{
    let sites = sites(alloc, scope, row)?;
    Ok(is_place_among(scope.tables, property, sites.rows()))
}

fn is_place_among(tables: &Tables<'_>, property: Property, sites: &[Option<Element>]) -> bool
    ensures { result ≡ list_any (leads_to_place tables.now property) sites.now }
{
    for &site in sites {
        if leads_to_place(tables, property, site) {
            return true;
        }
    }
    false
}

pub fn leads_to_place(tables: &Tables<'_>, property: Property, site: Option<Element>) -> bool
    ensures { result ≡ leads_to_place tables.now property site }
{
    match site {
        Some(element) => is_place_of(tables, property, element),
        None => false,
    }
}

/// Whether the property may stand at the element.
pub fn is_place_of(tables: &Tables<'_>, property: Property, element: Element) -> bool
    ensures { result ≡ is_place_of tables.now property element }
{
    let category = component_category(tables, element);
    match property {
        Property::DispatchProtocol | Property::Period | Property::ComputeExecutionTime => {
            is_of(Category::Thread, category)
        }
        Property::FramePeriod => is_of(Category::Processor, category),
        Property::QueueSize | Property::OverflowHandlingProtocol | Property::DequeueProtocol => {
            is_queue(tables, element)
        }
        Property::ActualProcessorBinding => true,
        Property::DataRepresentation
        | Property::Enumerators
        | Property::BaseType
        | Property::Dimension => is_of(Category::Data, category),
    }
}

pub fn is_of(asked: Category, found: Option<Category>) -> bool
    ensures { result ≡ is_of asked found }
{
    match found {
        Some(found) => asked == found,
        None => false,
    }
}

/// Whether it is an in event or event data port of a thread or a device.
fn is_queue(tables: &Tables<'_>, element: Element) -> bool
    ensures { result ≡ is_queue tables.now element }
{
    match element {
        Element::Feature(owner, number) => {
            is_of_domain(tables, owner) && has_queue(feature_at(tables, owner, number))
        }
        _ => false,
    }
}

fn is_of_domain(tables: &Tables<'_>, owner: usize) -> bool
    ensures { result ≡ is_of_domain tables.now owner }
{
    let category = category_of(tables, ClassRow::Type(owner));
    is_of(Category::Thread, category) || is_of(Category::Device, category)
}

fn has_queue(feature: Option<&Feature>) -> bool
    ensures { result ≡ has_queue (option_copied feature.entry) }
{
    match feature {
        Some(port) => goes_in(port.direction) && has_events(&port.kind),
        None => false,
    }
}

fn goes_in(direction: Direction) -> bool
    ensures { result ≡ goes_in direction }
{
    match direction {
        Direction::In => true,
        Direction::Out => false,
    }
}

fn has_events(kind: &PortKind) -> bool
    ensures { result ≡ has_events kind.now }
{
    match kind {
        PortKind::Data(_) => false,
        PortKind::Event | PortKind::EventData(_) => true,
    }
}
