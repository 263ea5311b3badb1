//! Where walks along a graph end, in which each row leads to one row at most.

ghost use Rattle.std.specs.Prelude.{◌≡◌, ◌⊎◌, ◌<◌, ◌≤◌, ℕ, [], ◌∷◌, ◌++◌, List, Option, Some, length, slice_get, IfOk, OnOk, IfSome, IfNone};
ghost use Rattle.aadl_typing.specs.declared.marks.Mark.TheVariants as mark;
ghost use Rattle.aadl_typing.specs.Walks.{AreEnds, IsFirstEnd};
ghost use Rattle.aadl_typing.specs.Marks.{mark_at, open_count, IsWalking, IsEnded, IsAtRest};

use crate::marks::{Mark, mark_at, open_marks, set_mark};
use aadl_names::at_row;
use hw_text::{NoMemory, Rows};
use std::alloc::Global;

/// Rows with their marks, and the walk so far.
#[derive(Drop)]
struct Walk {
    marks: Vec<Mark>,
    path: Vec<usize>,
}

/// For each row the first end that a walk from it meets.
pub fn ends_of(alloc: Global, nexts: &[Option<usize>]) -> Result<Rows<usize>, NoMemory>
    ensures { IfOk result (AreEnds nexts.now) }
{
    let mut walk = Walk {
        marks: open_marks(alloc, nexts)?,
        path: Vec::new(alloc),
    };
    let mut ends = Rows::new(alloc);
    for start in 0..nexts.len() {
        ends.push(walk.end(nexts, start)?)?;
    }
    Ok(ends)
}

impl Walk {
    /// The first end that a walk from this row meets.
    fn end(&mut self, nexts: &[Option<usize>], start: usize) -> Result<usize, NoMemory>
        requires { IsAtRest nexts.now self.old.marks.items self.old.path.items }
        ensures end { IfOk result (IsFirstEnd nexts.now start) }
        ensures rest { OnOk result (IsAtRest nexts.now self.new.marks.items self.new.path.items) }
    {
        let mut at = self.go(nexts, start)?;
        while let Some(row) = self.path.pop() {
            self.settle(row, at);
            at = row;
        }
        match mark_at(self.marks.as_slice(), at) {
            Mark::Ends(end) => Ok(end),
            _ => Ok(at),
        }
    }

    /// Walks to a row of which the end is known then.
    fn go(&mut self, nexts: &[Option<usize>], start: usize) -> Result<usize, NoMemory>
        requires { IsAtRest nexts.now self.old.marks.items self.old.path.items }
        ensures { IfOk result (IsEnded nexts.now self.new.marks.items self.new.path.items start) }
    {
        let mut at = start;
        while let Some(next) = self.step(nexts, at)? {
            at = next;
        }
        Ok(at)
    }

    /// One step on; none where the end of the row is known or can be.
    fn step(&mut self, nexts: &[Option<usize>], at: usize) -> Result<Option<usize>, NoMemory>
        ensures on { IfOk result (λ next. IfSome next (λ n. (start : ℕ) → IsWalking nexts.now self.old.marks.items self.old.path.items start at →
            IsWalking nexts.now self.new.marks.items self.new.path.items start n)) }
        ensures fewer { IfOk result (λ next. IfSome next (λ n. open_count self.new.marks.items < open_count self.old.marks.items)) }
        ensures ended { IfOk result (λ next. IfNone next ((start : ℕ) → IsWalking nexts.now self.old.marks.items self.old.path.items start at →
            IsEnded nexts.now self.new.marks.items self.new.path.items start at)) }
    {
        match mark_at(self.marks.as_slice(), at) {
            Mark::Ends(_) => Ok(None),
            Mark::Met(place) => {
                close(&mut self.marks, self.path.as_slice(), place);
                Ok(None)
            }
            Mark::Open => match at_row(nexts, at) {
                None => {
                    set_mark(&mut self.marks, at, Mark::Ends(at));
                    Ok(None)
                }
                Some(next) => {
                    let place = self.path.as_slice().len();
                    self.path.push(at)?;
                    set_mark(&mut self.marks, at, Mark::Met(place));
                    Ok(Some(next))
                }
            },
        }
    }

    /// Gives the last row of the walk the end of the row behind it, where it has none.
    fn settle(&mut self, row: usize, next: usize)
        ensures path { self.new.path.items ≡ self.old.path.items }
        ensures ended { (nexts : List (Option ℕ)) (start : ℕ) → IsEnded nexts self.old.marks.items (self.old.path.items ++ row ∷ []) start next →
            IsEnded nexts self.new.marks.items self.new.path.items start row }
    {
        if let Mark::Ends(_) = mark_at(self.marks.as_slice(), row) {
            return;
        }
        if let Mark::Ends(end) = mark_at(self.marks.as_slice(), next) {
            set_mark(&mut self.marks, row, Mark::Ends(end));
        }
    }
}

/// Makes the rows of the walk from this place on ends.
fn close(marks: &mut Vec<Mark>, path: &[usize], place: usize)
    ensures long { length marks.new.items ≡ length marks.old.items }
    ensures closed { (k x : ℕ) → place ≤ k → slice_get path.now k ≡ Some x → mark_at marks.new.items x ≡ mark.Ends x }
    ensures others { (x : ℕ) → ((k : ℕ) × (place ≤ k) × (slice_get path.now k ≡ Some x)) ⊎ (mark_at marks.new.items x ≡ mark_at marks.old.items x) }
{
    for number in place..path.len() {
        let row = path[number];
        set_mark(marks, row, Mark::Ends(row));
    }
}
