//! An order of the rows in which each that stands for a type comes behind its parts. Nothing is promised
//! of it: it only spares passes.

use crate::shape::{Part, Shape};
use crate::shapes::Shapes;
use aadl_names::ClassRow;
use hw_text::{NoMemory, Rows};
use std::alloc::Global;

/// The rows that may be settled one after another.
pub fn likely_order(alloc: Global, shapes: &Shapes) -> Result<Vec<ClassRow>, NoMemory> {
    let types = shapes.types.len();
    let many = types.saturating_add(shapes.implementations.len());
    let mut counts = Vec::from_elem(alloc, 0_usize, many)?;
    let mut users = no_users(alloc, many)?;
    let mut ready = Vec::new(alloc);
    for number in 0..many {
        let (class, shape) = row_at(shapes, types, number);
        let waits = list_parts(users.as_mut_slice(), types, class, shape)?;
        if waits == 0 {
            ready.push(class)?;
        }
        set_count(counts.as_mut_slice(), number, waits);
    }
    release_all(users.as_slice(), counts.as_mut_slice(), types, &mut ready)?;
    Ok(ready)
}

fn no_users(alloc: Global, many: usize) -> Result<Vec<Rows<ClassRow>>, NoMemory> {
    let mut users = Vec::new(alloc);
    for _ in 0..many {
        users.push(Rows::new(alloc))?;
    }
    Ok(users)
}

/// The row of a number, types coming first, and its shape.
fn row_at(shapes: &Shapes, types: usize, number: usize) -> (ClassRow, Option<&Shape>) {
    let (class, rows, place) = if number < types {
        (ClassRow::Type(number), shapes.types.rows(), number)
    } else {
        let place = number.saturating_sub(types);
        let rows = shapes.implementations.rows();
        (ClassRow::Implementation(place), rows, place)
    };
    match rows.get(place) {
        Some(Some(shape)) => (class, Some(shape)),
        _ => (class, None),
    }
}

fn number_of(types: usize, class: ClassRow) -> usize {
    match class {
        ClassRow::Base => usize::MAX,
        ClassRow::Type(number) => number,
        ClassRow::Implementation(number) => types.saturating_add(number),
    }
}

/// Lists a row at each of its parts; how many of them are rows.
fn list_parts(
    users: &mut [Rows<ClassRow>],
    types: usize,
    class: ClassRow,
    shape: Option<&Shape>,
) -> Result<usize, NoMemory> {
    match shape {
        Some(Shape::Array(part, _)) | Some(Shape::Alias(part)) => {
            list_part(users, types, class, *part)
        }
        Some(Shape::Struct(parts)) => {
            let mut waits = 0_usize;
            for &part in parts.rows() {
                waits = waits.saturating_add(list_part(users, types, class, part)?);
            }
            Ok(waits)
        }
        _ => Ok(0),
    }
}

fn list_part(
    users: &mut [Rows<ClassRow>],
    types: usize,
    class: ClassRow,
    part: Part,
) -> Result<usize, NoMemory> {
    let Part::Row(row) = part else {
        return Ok(0);
    };
    if let Some(list) = users.get_mut(number_of(types, row)) {
        list.push(class)?;
    }
    Ok(1)
}

fn set_count(counts: &mut [usize], number: usize, count: usize) {
    if let Some(place) = counts.get_mut(number) {
        *place = count;
    }
}

/// Takes row after row, and appends those of which all parts were taken.
fn release_all(
    users: &[Rows<ClassRow>],
    counts: &mut [usize],
    types: usize,
    ready: &mut Vec<ClassRow>,
) -> Result<(), NoMemory> {
    for at in 0..users.len() {
        let Some(&class) = ready.as_slice().get(at) else {
            return Ok(());
        };
        if let Some(list) = users.get(number_of(types, class)) {
            release(list.rows(), counts, types, ready)?;
        }
    }
    Ok(())
}

fn release(
    users: &[ClassRow],
    counts: &mut [usize],
    types: usize,
    ready: &mut Vec<ClassRow>,
) -> Result<(), NoMemory> {
    for &user in users {
        let number = number_of(types, user);
        let Some(&count) = counts.get(number) else {
            return Ok(());
        };
        set_count(counts, number, count.saturating_sub(1));
        if count == 1 {
            ready.push(user)?;
        }
    }
    Ok(())
}
