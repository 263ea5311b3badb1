//! One list behind another.

ghost use Rattle.std.specs.Prelude.{◌≡◌, ◌++◌, reverse, IfOk};

use hw_text::{NoMemory, Rows};

/// The members, the last one first.
fn reversed<T: Drop>(rows: Rows<T>) -> Result<Rows<T>, NoMemory>
    ensures { IfOk result (λ back. back ≡ reverse rows) }
{
    let mut left = rows;
    let mut back = Rows::new(left.allocator());
    while let Some(last) = left.pop() {
        back.push(last)?;
    }
    Ok(back)
}

/// The members of the one list, and behind them those of the other.
pub fn appended<T: Drop>(first: Rows<T>, second: Rows<T>) -> Result<Rows<T>, NoMemory>
    ensures { IfOk result (λ all. all ≡ first ++ second) }
{
    let mut all = first;
    let mut left = reversed(second)?;
    while let Some(next) = left.pop() {
        all.push(next)?;
    }
    Ok(all)
}
