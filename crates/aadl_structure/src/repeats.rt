//! Names that are given twice among the rows of one table.

ghost use Rattle.std.specs.Prelude.{◌≡◌, [], IfOk};
ghost use Rattle.aadl_names.specs.Offences.{earliest_from, repeats_from};

use aadl_names::{Keyed, Repeated};
use hw_text::{NoMemory, Refusal};
use std::alloc::Global;

/// The first row whose name an earlier one has, or the refusal that is known before it.
pub fn first_repeated<R: Keyed>(
    alloc: Global,
    rows: &[R],
    known: Option<Refusal>,
) -> Result<Option<Refusal>, NoMemory>
    ensures { IfOk result (λ first. first ≡ earliest_from known (repeats_from R.key_of R.place_of [] rows.now)) }
{
    let repeated = Repeated::new(alloc, known).with(alloc, rows)?;
    Ok(repeated.first)
}
