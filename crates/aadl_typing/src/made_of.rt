//! The data of a model as a graph, in which each leads to what it is made of.

ghost use Rattle.std.specs.Prelude.{◌≡◌, [], ◌∷◌, ◌++◌, map, filter_map, IfOk, OnOk};
ghost use Rattle.aadl_typing.specs.DataGraph.{part_number};
ghost use Rattle.aadl_typing.specs.Unlaid.{parts_in, made_of, type_made, implementation_made, base_made, made_rows};

use crate::numbers::part_number;
use aadl_names::{Scope, Tables};
use aadl_types::{Part, Shape, implementation_shape, type_shape};
use hw_text::{NoMemory, Rows};
use std::alloc::Global;

/// The rows of what each is made of; of data that no rule gives a shape nothing is known.
type Made = Option<Rows<usize>>;

pub fn made_rows(alloc: Global, scope: &Scope<'_>) -> Result<Rows<Made>, NoMemory>
    ensures { IfOk result (λ rows. rows ≡ made_rows scope.now.references.now scope.now.tables.now) }
{
    let mut rows = base_made(alloc)?;
    push_types(alloc, &mut rows, scope)?;
    push_implementations(alloc, &mut rows, scope)?;
    Ok(rows)
}

/// Base types are made of nothing.
fn base_made(alloc: Global) -> Result<Rows<Made>, NoMemory>
    ensures { IfOk result (λ rows. rows ≡ base_made) }
{
    let mut rows = Rows::new(alloc);
    rows.push(Some(Rows::new(alloc)))?;
    rows.push(Some(Rows::new(alloc)))?;
    rows.push(Some(Rows::new(alloc)))?;
    rows.push(Some(Rows::new(alloc)))?;
    rows.push(Some(Rows::new(alloc)))?;
    rows.push(Some(Rows::new(alloc)))?;
    rows.push(Some(Rows::new(alloc)))?;
    rows.push(Some(Rows::new(alloc)))?;
    rows.push(Some(Rows::new(alloc)))?;
    Ok(rows)
}

fn push_types(alloc: Global, rows: &mut Rows<Made>, scope: &Scope<'_>) -> Result<(), NoMemory>
    ensures { OnOk result (rows.new ≡ rows.old ++ map (type_made scope.now.references.now scope.now.tables.now) scope.now.tables.now.types) }
{
    for declared in scope.tables.types.rows() {
        let shape = type_shape(alloc, scope.tables, scope.references, declared.get())?;
        rows.push(made_of(alloc, scope.tables, &shape)?)?;
    }
    Ok(())
}

fn push_implementations(
    alloc: Global,
    rows: &mut Rows<Made>,
    scope: &Scope<'_>,
) -> Result<(), NoMemory>
    ensures { OnOk result (rows.new ≡ rows.old ++ map (implementation_made scope.now.references.now scope.now.tables.now) scope.now.tables.now.implementations) }
{
    for declared in scope.tables.implementations.rows() {
        let shape = implementation_shape(alloc, scope.tables, scope.references, declared.get())?;
        rows.push(made_of(alloc, scope.tables, &shape)?)?;
    }
    Ok(())
}

fn made_of(alloc: Global, tables: &Tables<'_>, shape: &Option<Shape>) -> Result<Made, NoMemory>
    ensures { IfOk result (λ made. made ≡ made_of tables.now shape.now) }
{
    match shape {
        None => Ok(None),
        Some(Shape::Enum(_)) => Ok(Some(Rows::new(alloc))),
        Some(Shape::Array(part, _)) | Some(Shape::Alias(part)) => {
            let mut numbers = Rows::new(alloc);
            push_number(&mut numbers, tables, *part)?;
            Ok(Some(numbers))
        }
        Some(Shape::Struct(members)) => Ok(Some(numbers_of(alloc, tables, members.rows())?)),
    }
}

fn numbers_of(alloc: Global, tables: &Tables<'_>, parts: &[Part]) -> Result<Rows<usize>, NoMemory>
    ensures { IfOk result (λ numbers. numbers ≡ filter_map (part_number tables.now) parts.now) }
{
    let mut numbers = Rows::new(alloc);
    for &part in parts {
        push_number(&mut numbers, tables, part)?;
    }
    Ok(numbers)
}

fn push_number(numbers: &mut Rows<usize>, tables: &Tables<'_>, part: Part) -> Result<(), NoMemory>
    ensures { OnOk result (numbers.new ≡ numbers.old ++ filter_map (part_number tables.now) (part ∷ [])) }
{
    match part_number(tables, part) {
        Some(number) => numbers.push(number),
        None => Ok(()),
    }
}
