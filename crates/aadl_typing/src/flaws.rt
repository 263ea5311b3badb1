//! Which rows of a graph have a flaw.

ghost use Rattle.std.specs.Prelude.{◌≡◌, ◌<◌, true, false, slice_set, IfOk};
ghost use Rattle.std.specs.List.{list_any};
ghost use Rattle.aadl_names.specs.Meanings.{at_row};
ghost use Rattle.aadl_typing.specs.Flaws.{flaw_at, AreFlaws};
ghost use Rattle.aadl_typing.specs.Marked.{shows_flaw, no_flaws, flawless_count, IsSound, IsDone, AreDone};

use crate::spreading::likely_order;
use hw_text::{NoMemory, Rows};
use std::alloc::Global;

/// For each row whether it has a flaw.
pub fn flaws_of(alloc: Global, rows: &[Option<Rows<usize>>]) -> Result<Vec<bool>, NoMemory>
    ensures { IfOk result (λ flaws. AreFlaws rows.now flaws.items) }
{
    let mut flaws = no_flaws(alloc, rows)?;
    settle_each(&mut flaws, rows, likely_order(alloc, rows)?.as_slice());
    let mut open = true;
    while open {
        open = pass(&mut flaws, rows);
    }
    Ok(flaws)
}

fn no_flaws(alloc: Global, rows: &[Option<Rows<usize>>]) -> Result<Vec<bool>, NoMemory>
    ensures { IfOk result (λ flaws. flaws.items ≡ no_flaws rows.now) }
{
    let mut flaws = Vec::new(alloc);
    for _row in rows {
        flaws.push(false)?;
    }
    Ok(flaws)
}

/// Settles these rows in this order.
fn settle_each(flaws: &mut Vec<bool>, rows: &[Option<Rows<usize>>], order: &[usize])
    requires { IsSound rows.now flaws.old.items }
    ensures { IsSound rows.now flaws.new.items }
{
    for &row in order {
        settle(flaws, rows, row);
    }
}

/// One pass over all rows; whether a flaw was found.
fn pass(flaws: &mut Vec<bool>, rows: &[Option<Rows<usize>>]) -> bool
    requires { IsSound rows.now flaws.old.items }
    ensures sound { IsSound rows.now flaws.new.items }
    ensures same { result ≡ false → flaws.new.items ≡ flaws.old.items }
    ensures done { result ≡ false → AreDone rows.now flaws.old.items }
    ensures fewer { result ≡ true → flawless_count flaws.new.items < flawless_count flaws.old.items }
{
    let mut found = false;
    for row in 0..rows.len() {
        if settle(flaws, rows, row) {
            found = true;
        }
    }
    found
}

/// Marks the row where it shows a flaw; whether that is new.
fn settle(flaws: &mut Vec<bool>, rows: &[Option<Rows<usize>>], row: usize) -> bool
    requires { IsSound rows.now flaws.old.items }
    ensures sound { IsSound rows.now flaws.new.items }
    ensures same { result ≡ false → flaws.new.items ≡ flaws.old.items }
    ensures done { result ≡ false → IsDone rows.now flaws.old.items row }
    ensures fewer { result ≡ true → flawless_count flaws.new.items < flawless_count flaws.old.items }
{
    if flaw_at(flaws.as_slice(), row) || !shows_flaw(flaws.as_slice(), rows, row) {
        return false;
    }
    mark(flaws, row);
    true
}

fn mark(flaws: &mut Vec<bool>, row: usize)
    ensures { flaws.new.items ≡ slice_set flaws.old.items row true }
{
    if row < flaws.len() {
        flaws[row] = true;
    }
}

fn shows_flaw(flaws: &[bool], rows: &[Option<Rows<usize>>], row: usize) -> bool
    ensures { result ≡ shows_flaw flaws.now (at_row rows.now row) }
{
    match rows.get(row) {
        Some(Some(leads)) => any_flaw(flaws, leads.rows()),
        _ => true,
    }
}

fn any_flaw(flaws: &[bool], rows: &[usize]) -> bool
    ensures { result ≡ list_any (flaw_at flaws.now) rows.now }
{
    for &row in rows {
        if flaw_at(flaws, row) {
            return true;
        }
    }
    false
}

/// Whether the row is marked; one past the last row is.
pub fn flaw_at(flaws: &[bool], row: usize) -> bool
    ensures { result ≡ flaw_at flaws.now row }
{
    match flaws.get(row) {
        Some(flaw) => *flaw,
        None => true,
    }
}
