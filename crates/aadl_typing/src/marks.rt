//! What is known of the rows of a graph, in which each leads to one row at most.

ghost use Rattle.std.specs.Prelude.{◌≡◌, slice_set, IfOk};
ghost use Rattle.aadl_typing.specs.Marks.{mark_at, open_marks};

use hw_text::NoMemory;
use std::alloc::Global;

/// What is known of a row.
#[derive(Clone, Copy, Debug, PartialEq, Eq)]
pub enum Mark {
    Open,
    /// It is the row of this number on the walk.
    Met(usize),
    /// Walks from it end there.
    Ends(usize),
}

/// What is known of a row; one past the last row is an end.
pub fn mark_at(marks: &[Mark], row: usize) -> Mark
    ensures { result ≡ mark_at marks.now row }
{
    match marks.get(row) {
        Some(mark) => *mark,
        None => Mark::Ends(row),
    }
}

pub fn set_mark(marks: &mut Vec<Mark>, row: usize, mark: Mark)
    ensures { marks.new.items ≡ slice_set marks.old.items row mark }
{
    if row < marks.len() {
        marks[row] = mark;
    }
}

/// Nothing is known yet.
pub fn open_marks(alloc: Global, nexts: &[Option<usize>]) -> Result<Vec<Mark>, NoMemory>
    ensures { IfOk result (λ marks. marks.items ≡ open_marks nexts.now) }
{
    let mut marks = Vec::new(alloc);
    for _next in nexts {
        marks.push(Mark::Open)?;
    }
    Ok(marks)
}
