//! The tables of a model, and what its references lead to.

use crate::elements::{tell_class, tell_element, tell_head, tell_row};
use aadl_names::{ClassRow, Element, Repeated, Scope, Tables, at_row};
use aadl_tree::Association;
use hw_text::{NoMemory, Refusal, TextBuf};
use std::alloc::Global;

/// A line for each row of each table, and the refusal of the first name that is given twice.
pub fn tell_tables(alloc: Global, scope: &Scope<'_>, out: &mut TextBuf) -> Result<(), NoMemory> {
    tell_types(scope, out)?;
    tell_implementations(scope, out)?;
    tell_features(scope, out)?;
    tell_subcomponents(scope, out)?;
    tell_connections(scope, out)?;
    tell_associations(alloc, scope, out)?;
    tell_annexes(scope, out)?;
    if let Some(twice) = first_twice(alloc, scope.tables)? {
        out.word(twice.line(alloc, b"m")?.rows())?;
    }
    Ok(())
}

fn tell_types(scope: &Scope<'_>, out: &mut TextBuf) -> Result<(), NoMemory> {
    for (number, row) in scope.tables.types.rows().iter().enumerate() {
        tell_head(out, b"type", number)?;
        out.word(row.get().name.name.rows())?;
        out.newline()?;
    }
    Ok(())
}

fn tell_implementations(scope: &Scope<'_>, out: &mut TextBuf) -> Result<(), NoMemory> {
    for (number, row) in scope.tables.implementations.rows().iter().enumerate() {
        tell_head(out, b"implementation", number)?;
        let name = &row.get().name;
        out.word(name.component_type.name.rows())?;
        out.word(b".")?;
        out.word(name.name.rows())?;
        out.word(b" of ")?;
        tell_row(out, at_row(scope.resolved.types.rows(), number))?;
        out.newline()?;
    }
    Ok(())
}

fn tell_features(scope: &Scope<'_>, out: &mut TextBuf) -> Result<(), NoMemory> {
    for (number, row) in scope.tables.features.rows().iter().enumerate() {
        tell_head(out, b"feature", number)?;
        out.word(row.part.get().name.name.rows())?;
        out.word(b" carries ")?;
        tell_class(out, at_row(scope.resolved.payloads.rows(), number))?;
        out.newline()?;
    }
    Ok(())
}

fn tell_subcomponents(scope: &Scope<'_>, out: &mut TextBuf) -> Result<(), NoMemory> {
    for (number, row) in scope.tables.subcomponents.rows().iter().enumerate() {
        tell_head(out, b"subcomponent", number)?;
        out.word(row.part.get().name.name.rows())?;
        out.word(b" is ")?;
        tell_class(out, at_row(scope.resolved.classes.rows(), number))?;
        out.newline()?;
    }
    Ok(())
}

fn tell_connections(scope: &Scope<'_>, out: &mut TextBuf) -> Result<(), NoMemory> {
    for (number, row) in scope.tables.connections.rows().iter().enumerate() {
        tell_head(out, b"connection", number)?;
        let connection = row.part.get();
        out.word(connection.name.name.rows())?;
        out.word(b" ")?;
        tell_row(out, scope.end(row.owner, &connection.from))?;
        out.word(b" -> ")?;
        tell_row(out, scope.end(row.owner, &connection.to))?;
        out.newline()?;
    }
    Ok(())
}

fn tell_associations(alloc: Global, scope: &Scope<'_>, out: &mut TextBuf) -> Result<(), NoMemory> {
    for (number, row) in scope.tables.associations.rows().iter().enumerate() {
        tell_head(out, b"association", number)?;
        let association = row.association.get();
        out.word(association.property.text(alloc)?.rows())?;
        out.word(b" at ")?;
        tell_element(out, Some(row.holder))?;
        tell_applies(scope, inside(scope, row.holder), association, out)?;
        out.newline()?;
    }
    Ok(())
}

/// What an association applies to by the paths behind it, which count from this class.
fn tell_applies(
    scope: &Scope<'_>,
    from: Option<ClassRow>,
    association: &Association,
    out: &mut TextBuf,
) -> Result<(), NoMemory> {
    for path in association.applies_to.rows() {
        out.word(b", applies to ")?;
        tell_element(out, from.and_then(|from| scope.path(from, path)))?;
    }
    Ok(())
}

/// From where the paths count that stand at an element.
fn inside(scope: &Scope<'_>, holder: Element) -> Option<ClassRow> {
    match holder {
        Element::Type(number) => Some(ClassRow::Type(number)),
        Element::Implementation(number) => Some(ClassRow::Implementation(number)),
        Element::Subcomponent(owner, number) => class_of(scope, owner, number),
        Element::Feature(_, _) | Element::Connection(_, _) => None,
    }
}

/// The class of the subcomponent of this number of an implementation.
fn class_of(scope: &Scope<'_>, owner: usize, number: usize) -> Option<ClassRow> {
    for (row, part) in scope.tables.subcomponents.rows().iter().enumerate() {
        if part.owner == owner && part.number == number {
            return at_row(scope.resolved.classes.rows(), row);
        }
    }
    None
}

fn tell_annexes(scope: &Scope<'_>, out: &mut TextBuf) -> Result<(), NoMemory> {
    for (number, row) in scope.tables.annexes.rows().iter().enumerate() {
        tell_head(out, b"annex", number)?;
        out.word(row.annex.get().name.name.rows())?;
        out.word(b" at ")?;
        match row.holder {
            Some(holder) => tell_element(out, Some(holder))?,
            None => out.word(b"the package")?,
        }
        out.newline()?;
    }
    Ok(())
}

/// The refusal of the first name that is given twice in its name space: one of types, one of
/// implementations, one of features, and one of subcomponents and connections.
fn first_twice(alloc: Global, tables: &Tables<'_>) -> Result<Option<Refusal>, NoMemory> {
    let types = Repeated::new(alloc, None).with(alloc, tables.types.rows())?;
    let implementations = Repeated::new(alloc, types.first).with(
        alloc,
        tables.implementations.rows(),
    )?;
    let features = Repeated::new(alloc, implementations.first).with(alloc, tables.features.rows())?;
    let inner = Repeated::new(alloc, features.first)
        .with(alloc, tables.subcomponents.rows())?
        .with(alloc, tables.connections.rows())?;
    Ok(inner.first)
}
