//! The data of a model as a graph: which type leads to which.

ghost use Rattle.std.specs.Prelude.{◌≡◌, ◌++◌, map, option_copied, IfOk, OnOk};
ghost use Rattle.aadl_typing.specs.DataGraph.{alone, next_by, base_nexts, type_next, implementation_next, nexts_of, class_data, kind_data, payloads_of};

use crate::numbers::part_number;
use aadl_names::Scope;
use aadl_tree::{Association, Class, PortKind};
use aadl_types::{Deciding, base_part, deciding_with, declared_type, part_of};
use hw_text::{NoMemory, Rows};
use std::alloc::Global;

/// For each row of the graph the one to which it leads: a data type with Base_Type alone leads to that.
pub fn nexts_of(alloc: Global, scope: &Scope<'_>) -> Result<Rows<Option<usize>>, NoMemory>
    ensures { IfOk result (λ nexts. nexts ≡ nexts_of scope.now.references.now scope.now.tables.now) }
{
    let mut nexts = base_nexts(alloc)?;
    push_types(alloc, &mut nexts, scope)?;
    push_implementations(alloc, &mut nexts, scope)?;
    Ok(nexts)
}

/// The rows of the data that the ports carry, in the order of their table.
pub fn payloads_of(alloc: Global, scope: &Scope<'_>) -> Result<Rows<Option<usize>>, NoMemory>
    ensures { IfOk result (λ payloads. payloads ≡ payloads_of scope.now.references.now scope.now.tables.now) }
{
    let mut payloads = Rows::new(alloc);
    for port in scope.tables.features.rows() {
        payloads.push(kind_data(alloc, scope, &port.part.get().kind)?)?;
    }
    Ok(payloads)
}

/// Base types lead nowhere.
fn base_nexts(alloc: Global) -> Result<Rows<Option<usize>>, NoMemory>
    ensures { IfOk result (λ nexts. nexts ≡ base_nexts) }
{
    let mut nexts = Rows::new(alloc);
    nexts.push(None)?;
    nexts.push(None)?;
    nexts.push(None)?;
    nexts.push(None)?;
    nexts.push(None)?;
    nexts.push(None)?;
    nexts.push(None)?;
    nexts.push(None)?;
    nexts.push(None)?;
    Ok(nexts)
}

fn push_types(
    alloc: Global,
    nexts: &mut Rows<Option<usize>>,
    scope: &Scope<'_>,
) -> Result<(), NoMemory>
    ensures { OnOk result (nexts.new ≡ nexts.old ++ map (type_next scope.now.references.now scope.now.tables.now) scope.now.tables.now.types) }
{
    for declared in scope.tables.types.rows() {
        let deciding = Deciding::among(declared.get().properties.rows());
        nexts.push(next_by(alloc, scope, &deciding)?)?;
    }
    Ok(())
}

fn push_implementations(
    alloc: Global,
    nexts: &mut Rows<Option<usize>>,
    scope: &Scope<'_>,
) -> Result<(), NoMemory>
    ensures { OnOk result (nexts.new ≡ nexts.old ++ map (implementation_next scope.now.references.now scope.now.tables.now) scope.now.tables.now.implementations) }
{
    for declared in scope.tables.implementations.rows() {
        let declared = declared.get();
        let own_type = declared_type(scope.tables, scope.references, declared);
        let deciding = deciding_with(declared, own_type);
        nexts.push(next_by(alloc, scope, &deciding)?)?;
    }
    Ok(())
}

/// What the Base_Type means that alone counts.
fn next_by(
    alloc: Global,
    scope: &Scope<'_>,
    deciding: &Deciding<'_>,
) -> Result<Option<usize>, NoMemory>
    ensures { IfOk result (λ next. next ≡ next_by scope.now.references.now scope.now.tables.now deciding.now) }
{
    let Some(base) = alone(deciding) else {
        return Ok(None);
    };
    match base_part(alloc, scope.tables, scope.references, base)? {
        Some(part) => Ok(part_number(scope.tables, part)),
        None => Ok(None),
    }
}

/// The Base_Type where neither Enumerators nor Dimension counts.
fn alone<'a>(deciding: &Deciding<'a>) -> Option<&'a Association>
    ensures { option_copied result ≡ alone deciding.now.enumerators deciding.now.base_type deciding.now.dimension }
{
    match (&deciding.enumerators, &deciding.dimension) {
        (None, None) => match &deciding.base_type {
            Some(base) => Some(base.get()),
            None => None,
        },
        _ => None,
    }
}

fn kind_data(alloc: Global, scope: &Scope<'_>, kind: &PortKind) -> Result<Option<usize>, NoMemory>
    ensures { IfOk result (λ row. row ≡ kind_data scope.now.references.now scope.now.tables.now kind.now) }
{
    match kind {
        PortKind::Event => Ok(None),
        PortKind::Data(class) | PortKind::EventData(class) => class_data(alloc, scope, class),
    }
}

/// The row of the data that a classifier means.
pub fn class_data(
    alloc: Global,
    scope: &Scope<'_>,
    class: &Class,
) -> Result<Option<usize>, NoMemory>
    ensures { IfOk result (λ row. row ≡ class_data scope.now.references.now scope.now.tables.now class.now) }
{
    match part_of(alloc, scope.tables, scope.references, class)? {
        Some(part) => Ok(part_number(scope.tables, part)),
        None => Ok(None),
    }
}
