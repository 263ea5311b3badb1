//! Labels for the rows of a graph, such that no row leads to a lower label, and rows of one label
//! lie on loops together: the strongly connected parts, found in one pass (after D. J. Pearce).
//! Nothing is promised of them: who uses the labels checks them.

use crate::rises::label_at;
use hw_text::{NoMemory, Rows};
use std::alloc::Global;

/// A row whose edges are being followed.
#[derive(Clone, Copy)]
struct Visit {
    row: usize,
    /// How many of its edges were followed.
    edges: usize,
    /// Whether it leads to no row that was met before it and has no label.
    first: bool,
}

/// What the pass knows.
#[derive(Drop)]
struct Pass {
    /// 0 for a row that was not met; then a number from 1 up in the order of meeting, or the
    /// lowest one that it leads to; at last its label, from the highest down.
    marks: Vec<usize>,
    /// The rows from which the pass came, the last one above.
    visits: Vec<Visit>,
    /// The rows that are left and have no label.
    open: Vec<usize>,
    next: usize,
    label: usize,
}

/// One label for each row.
pub fn labels(alloc: Global, edges: &[Rows<usize>]) -> Result<Vec<usize>, NoMemory> {
    let mut pass = Pass {
        marks: Vec::from_elem(alloc, 0, edges.len())?,
        visits: Vec::new(alloc),
        open: Vec::new(alloc),
        next: 1,
        label: usize::MAX - 1,
    };
    let mut start = 0;
    for _ in 0..steps(edges) {
        match pass.visits.pop() {
            Some(visit) => pass.go_on(edges, visit)?,
            None if start < edges.len() => {
                pass.meet(start)?;
                start += 1;
            }
            None => break,
        }
    }
    Ok(pass.marks)
}

/// As many steps as a pass may take: two for each row and two for each edge.
fn steps(edges: &[Rows<usize>]) -> usize {
    let mut steps = 1_usize;
    for leads in edges {
        steps = steps
            .saturating_add(2)
            .saturating_add(leads.len())
            .saturating_add(leads.len());
    }
    steps
}

impl Pass {
    /// Begins to follow the edges of a row, where it was not met before.
    fn meet(&mut self, row: usize) -> Result<(), NoMemory> {
        if label_at(self.marks.as_slice(), row) != 0 {
            return Ok(());
        }
        set_mark(self.marks.as_mut_slice(), row, self.next);
        self.next = self.next.saturating_add(1);
        self.visits.push(Visit {
            row,
            edges: 0,
            first: true,
        })?;
        Ok(())
    }

    /// Follows one more edge, or leaves the row behind its last one.
    fn go_on(&mut self, edges: &[Rows<usize>], visit: Visit) -> Result<(), NoMemory> {
        let Some(leads) = edges.get(visit.row) else {
            return Ok(());
        };
        let Some(&lead) = leads.rows().get(visit.edges) else {
            return self.leave(visit);
        };
        let mark = label_at(self.marks.as_slice(), lead);
        if mark == 0 {
            self.visits.push(visit)?;
            return self.meet(lead);
        }
        let lower = mark < label_at(self.marks.as_slice(), visit.row);
        if lower {
            set_mark(self.marks.as_mut_slice(), visit.row, mark);
        }
        self.visits.push(Visit {
            row: visit.row,
            edges: visit.edges.saturating_add(1),
            first: visit.first && !lower,
        })?;
        Ok(())
    }

    /// Labels the row and all that were left behind it and lead to it, where it is the first of them.
    fn leave(&mut self, visit: Visit) -> Result<(), NoMemory> {
        if visit.first {
            let own = label_at(self.marks.as_slice(), visit.row);
            while let Some(row) = self.open.pop() {
                if label_at(self.marks.as_slice(), row) < own {
                    self.open.push(row)?;
                    break;
                }
                set_mark(self.marks.as_mut_slice(), row, self.label);
            }
            set_mark(self.marks.as_mut_slice(), visit.row, self.label);
            self.label = self.label.saturating_sub(1);
        } else {
            self.open.push(visit.row)?;
        }
        Ok(())
    }
}

fn set_mark(marks: &mut [usize], row: usize, mark: usize) {
    if let Some(place) = marks.get_mut(row) {
        *place = mark;
    }
}
