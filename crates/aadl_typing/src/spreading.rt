//! An order of the rows in which each that has a flaw comes behind one to which it leads and that has
//! one. Nothing is promised of it: it only spares passes.

use hw_text::{NoMemory, Rows};
use std::alloc::Global;

/// The rows of which nothing is known, and then those that lead to rows before them.
pub fn likely_order(alloc: Global, rows: &[Option<Rows<usize>>]) -> Result<Vec<usize>, NoMemory> {
    let users = users_of(alloc, rows)?;
    let mut met = Vec::from_elem(alloc, false, rows.len())?;
    let mut order = Vec::new(alloc);
    for (row, leads) in rows.iter().enumerate() {
        if leads.is_none() {
            meet(&mut order, met.as_mut_slice(), row)?;
        }
    }
    for at in 0..rows.len() {
        if let Some(&row) = order.as_slice().get(at) {
            meet_users(&mut order, met.as_mut_slice(), users.as_slice(), row)?;
        }
    }
    Ok(order)
}

/// For each row those that lead to it.
fn users_of(alloc: Global, rows: &[Option<Rows<usize>>]) -> Result<Vec<Rows<usize>>, NoMemory> {
    let mut users = Vec::new(alloc);
    for _ in rows {
        users.push(Rows::new(alloc))?;
    }
    for (row, leads) in rows.iter().enumerate() {
        if let Some(leads) = leads {
            list_user(users.as_mut_slice(), leads.rows(), row)?;
        }
    }
    Ok(users)
}

fn list_user(users: &mut [Rows<usize>], leads: &[usize], row: usize) -> Result<(), NoMemory> {
    for &lead in leads {
        if let Some(list) = users.get_mut(lead) {
            list.push(row)?;
        }
    }
    Ok(())
}

fn meet_users(
    order: &mut Vec<usize>,
    met: &mut [bool],
    users: &[Rows<usize>],
    row: usize,
) -> Result<(), NoMemory> {
    if let Some(list) = users.get(row) {
        for &user in list.rows() {
            meet(order, met, user)?;
        }
    }
    Ok(())
}

fn meet(order: &mut Vec<usize>, met: &mut [bool], row: usize) -> Result<(), NoMemory> {
    if let Some(mark) = met.get_mut(row) {
        if !*mark {
            *mark = true;
            order.push(row)?;
        }
    }
    Ok(())
}
