//! How the connections of a model lead from port to port.

ghost use Rattle.std.specs.Prelude.{◌≡◌, map, option_copied, slice_get, IfOk};
ghost use Rattle.aadl_domains.specs.Components.{implementation_in};
ghost use Rattle.aadl_names.specs.Keys.{key, place_of};
ghost use Rattle.aadl_links.specs.Wires.{wires_of, feature_keys, subcomponent_keys, subcomponent_named, subcomponent_name, port_text, holds_connections, may_send, innermost, destination_key, destinations_of, inside, within, sender, sender_row, out_named, port_at};

use aadl_names::{ClassRow, Index, PartRow, References, Resolved, Scope, Tables, at_row};
use aadl_tree::{Category, Connection, Direction};
use hw_text::{Name, NoMemory};
use std::alloc::Global;
use std::marker::Model;

/// A model, the implementation with which its instance begins, and its connections by their destinations.
#[derive(Drop)]
pub struct Wiring<'a> {
    tables: &'a Tables<'a>,
    references: &'a References<'a>,
    resolved: &'a Resolved,
    destinations: Index<'a>,
    root: usize,
}

impl<'a> Model for Wiring<'a> {
    ghost use Rattle.std.specs.Prelude.{◌≡◌};
    ghost use Rattle.aadl_links.specs.Wires.{Wires, wires_of, feature_keys, subcomponent_keys, destinations_of};
    ghost use Rattle.std.specs.Coded.{codes};
    ghost use Rattle.aadl_tree.specs.contracts.value.PropertyValue as property_value;

    ghost Value = { Wires };

    ghost coded = { Prim.hlevel (codes, property_value.the_row.coded) };

    ghost view = { λ w. wires_of w.tables.now w.resolved.now w.root };

    ghost invariant = { λ w. (w.destinations ≡ destinations_of w.tables.now) × (w.references.now.subcomponents ≡ subcomponent_keys w.tables.now)
        × (w.references.now.features ≡ feature_keys w.tables.now) };
}

impl<'a> Wiring<'a> {
    /// The wiring of an instance that begins with an implementation.
    pub fn of(
        alloc: Global,
        tables: &'a Tables<'a>,
        references: &'a References<'a>,
        resolved: &'a Resolved,
        root: usize,
    ) -> Result<Self, NoMemory>
        requires subcomponents { references.now.subcomponents ≡ subcomponent_keys tables.now }
        requires features { references.now.features ≡ feature_keys tables.now }
        ensures { IfOk result (λ wiring. wiring ≡ wires_of tables.now resolved.now root) }
    {
        let destinations = destinations(alloc, tables.connections.rows())?;
        Ok(Wiring {
            tables,
            references,
            resolved,
            destinations,
            root,
        })
    }

    /// The first connection of an implementation with this destination.
    pub fn ending(&self, implementation: usize, first: &[u8], port: &[u8]) -> Option<usize>
        ensures { result ≡ place_of (destinations_of self.now.tables) (key implementation first.now port.now) }
    {
        self.destinations.place(implementation, first, port)
    }

    /// The connection of a row.
    pub fn connection(&self, row: usize) -> Option<&PartRow<'a, Connection>>
        ensures { option_copied result ≡ slice_get self.now.tables.connections row }
    {
        self.tables.connections.rows().get(row)
    }

    /// The name of a subcomponent.
    pub fn name(&self, subcomponent: usize) -> Option<&Name>
        ensures { option_copied result ≡ subcomponent_name self.now subcomponent }
    {
        match self.tables.subcomponents.rows().get(subcomponent) {
            Some(row) => Some(&row.part.get().name.name),
            None => None,
        }
    }

    /// The subcomponent of a name in an implementation.
    pub fn subcomponent(&self, implementation: usize, name: &Name) -> Option<usize>
        ensures { result ≡ subcomponent_named self.now implementation name.now }
    {
        self.references
            .subcomponents
            .place(implementation, name.rows(), &[])
    }

    /// The implementation whose connections run inside of a subcomponent.
    pub fn inside(&self, subcomponent: usize) -> Option<usize>
        ensures { result ≡ inside self.now subcomponent }
    {
        let row = self.tables.subcomponents.rows().get(subcomponent)?;
        if !holds_connections(row.part.get().category) {
            return None;
        }
        implementation_in(at_row(self.resolved.classes.rows(), subcomponent)?)
    }

    /// The implementation whose connections run inside of the component to which a path leads.
    pub fn within(&self, path: &[usize]) -> Option<usize>
        ensures { result ≡ within self.now path.now }
    {
        match innermost(path) {
            None => Some(self.root),
            Some(last) => self.inside(last),
        }
    }

    /// The row of the out port of this name of the thread or device to which a path leads.
    pub fn sender(&self, path: &[usize], name: &Name) -> Option<usize>
        ensures { result ≡ sender self.now (port_at path.now name.now) }
    {
        self.sender_row(innermost(path)?, name)
    }

    fn sender_row(&self, subcomponent: usize, name: &Name) -> Option<usize>
        ensures { result ≡ sender_row self.now name.now subcomponent }
    {
        let row = self.tables.subcomponents.rows().get(subcomponent)?;
        if !may_send(row.part.get().category) {
            return None;
        }
        let class = at_row(self.resolved.classes.rows(), subcomponent)?;
        self.out_port(self.resolved.type_row(class)?, name)
    }

    fn out_port(&self, declared: usize, name: &Name) -> Option<usize>
        ensures { result ≡ out_named self.now name.now declared }
    {
        let feature = self.references.features.place(declared, name.rows(), &[])?;
        let row = self.tables.features.rows().get(feature)?;
        if row.part.get().direction == Direction::Out {
            Some(feature)
        } else {
            None
        }
    }
}

/// The destinations of connections, in their order.
fn destinations<'a>(
    alloc: Global,
    rows: &'a [PartRow<'a, Connection>],
) -> Result<Index<'a>, NoMemory>
    ensures { IfOk result (λ index. index ≡ map destination_key rows.now) }
{
    let mut index = Index::new(alloc);
    for row in rows {
        let end = &row.part.get().to;
        (index, _) = index.with(row.owner, end.first.name.rows(), port_text(&end.port))?;
    }
    Ok(index)
}

fn port_text(port: &Option<Name>) -> &[u8]
    ensures { result.now ≡ port_text port.now }
{
    match port {
        Some(name) => name.rows(),
        None => &[],
    }
}

/// The last subcomponent of a path.
fn innermost(path: &[usize]) -> Option<usize>
    ensures { result ≡ innermost path.now }
{
    path.last().copied()
}

fn implementation_in(class: ClassRow) -> Option<usize>
    ensures { result ≡ implementation_in class }
{
    match class {
        ClassRow::Base | ClassRow::Type(_) => None,
        ClassRow::Implementation(number) => Some(number),
    }
}

fn holds_connections(category: Category) -> bool
    ensures { result ≡ holds_connections category }
{
    match category {
        Category::Process | Category::System => true,
        _ => false,
    }
}

fn may_send(category: Category) -> bool
    ensures { result ≡ may_send category }
{
    match category {
        Category::Thread | Category::Device => true,
        _ => false,
    }
}
