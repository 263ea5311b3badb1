//! Components by the names of the way to them, and which association of a property counts there.

use aadl_names::{ClassRow, Component, Held, Scope, Step, at_row};
use aadl_tree::{Association, Feature, Implementation, Subcomponent};
use case_files::{Trouble, count, tell_line, tell_place};
use hw_text::{ByteList, Name, NameFault, NoMemory, Rows, TextBuf};
use std::alloc::Global;

/// What the names so far lead to.
#[derive(Drop)]
struct Way<'a> {
    steps: Rows<Step<'a>>,
    /// The last subcomponent, where there is one.
    last: Option<Held<'a, Subcomponent>>,
    /// What the last subcomponent is, or the implementation where the way begins.
    within: Option<ClassRow>,
    /// The feature at which the way ends.
    feature: Option<Held<'a, Feature>>,
}

/// `counts MODEL PROPERTY ROW NAME ..`: the place of the association of the property that counts for
/// the component to which the names lead from the implementation in this row, or for its feature
/// of the last name.
pub fn tell_counting(
    alloc: Global,
    scope: &Scope<'_>,
    words: &[ByteList],
    out: &mut TextBuf,
) -> Result<(), Trouble> {
    let [_, property, row, names @ ..] = words else {
        return Err(Trouble::BadLine);
    };
    let Some(row) = count(row.rows()) else {
        return Err(Trouble::BadLine);
    };
    let Some(way) = way_of(alloc, scope, row as usize, names)? else {
        return Ok(tell_line(out, b"no such thing")?);
    };
    Ok(tell_found(alloc, scope, way, property.rows(), out)?)
}

/// The way along these names, where there is one.
fn way_of<'a>(
    alloc: Global,
    scope: &Scope<'a>,
    row: usize,
    names: &[ByteList],
) -> Result<Option<Way<'a>>, Trouble> {
    let mut way = Way {
        steps: Rows::new(alloc),
        last: None,
        within: Some(ClassRow::Implementation(row)),
        feature: None,
    };
    for word in names {
        let name = match Name::read(alloc, word.rows()) {
            Ok(name) => name,
            Err(NameFault::BadName) => return Err(Trouble::BadLine),
            Err(NameFault::NoMemory) => return Err(Trouble::NoMemory),
        };
        if !goes_on(&mut way, scope, &name)? {
            return Ok(None);
        }
    }
    Ok(Some(way))
}

/// Whether the way goes on by this name: to a subcomponent, or else to a feature, behind which it
/// ends.
fn goes_on<'a>(way: &mut Way<'a>, scope: &Scope<'a>, name: &Name) -> Result<bool, NoMemory> {
    let (Some(within), None) = (way.within, &way.feature) else {
        return Ok(false);
    };
    if let Some(row) = scope.subcomponent(within, name) {
        return enters(way, scope, within, row);
    }
    let Some(row) = scope.feature(within, name) else {
        return Ok(false);
    };
    way.feature = match scope.tables.features.rows().get(row) {
        Some(found) => Some(Held::new(found.part.get())),
        None => None,
    };
    Ok(way.feature.is_some())
}

/// Whether the way goes on to the subcomponent in this row.
fn enters<'a>(
    way: &mut Way<'a>,
    scope: &Scope<'a>,
    within: ClassRow,
    row: usize,
) -> Result<bool, NoMemory> {
    let (Some(outer), Some(found)) = (
        implementation_in(scope, within),
        scope.tables.subcomponents.rows().get(row),
    ) else {
        return Ok(false);
    };
    let inner = found.part.get();
    way.steps.push(Step {
        within: outer,
        name: Held::new(&inner.name.name),
    })?;
    way.last = Some(Held::new(inner));
    way.within = at_row(scope.resolved.classes.rows(), row);
    Ok(true)
}

fn implementation_in<'a>(scope: &Scope<'a>, class: ClassRow) -> Option<Held<'a, Implementation>> {
    match class {
        ClassRow::Base | ClassRow::Type(_) => None,
        ClassRow::Implementation(number) => {
            let found = scope.tables.implementations.rows().get(number)?;
            Some(Held::new(found.get()))
        }
    }
}

/// Appends the place of what counts at the end of a way.
fn tell_found<'a>(
    alloc: Global,
    scope: &Scope<'a>,
    way: Way<'a>,
    property: &[u8],
    out: &mut TextBuf,
) -> Result<(), NoMemory> {
    let Way {
        steps,
        last,
        within,
        feature,
    } = way;
    let Some(component) = component(scope, steps, last, within) else {
        return tell_line(out, b"no such thing");
    };
    match feature {
        Some(port) => tell(out, component.counting_at(alloc, property, port.get())?),
        None => tell(out, component.counting(alloc, property)?),
    }
}

fn component<'a>(
    scope: &Scope<'a>,
    steps: Rows<Step<'a>>,
    last: Option<Held<'a, Subcomponent>>,
    within: Option<ClassRow>,
) -> Option<Component<'a>> {
    let class = within?;
    let declared = scope
        .tables
        .types
        .rows()
        .get(scope.resolved.type_row(class)?)?;
    Some(Component {
        steps,
        subcomponent: last?,
        implementation: implementation_in(scope, class),
        declared: Held::new(declared.get()),
    })
}

fn tell(out: &mut TextBuf, found: Option<&Association>) -> Result<(), NoMemory> {
    match found {
        Some(association) => {
            tell_place(out, association.property.first.place)?;
            out.newline()
        }
        None => tell_line(out, b"none"),
    }
}
