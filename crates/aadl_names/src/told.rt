//! Which of several refusals is told: the one that stands first in the text.

ghost use Rattle.std.specs.Prelude.{◌≡◌, Option, Some, IfOk};
ghost use Rattle.hw_text.specs.declared.refusal.Refusal.{Refusal as RefusalValue};
ghost use Rattle.aadl_names.specs.Offences.{named, earlier, earliest_from, offences};

use hw_text::{Code, NoMemory, Place, Refusal, TextBuf};
use std::alloc::Global;

/// A condition of one row.
pub trait Test<R> {
    /// The refusal of a row that does not meet it.
    ghost offence_of: { Self → R → Option RefusalValue };

    fn offence(&self, alloc: Global, row: &R) -> Result<Option<Refusal>, NoMemory>
        ensures { IfOk result (λ offence. offence ≡ offence_of self.now row.now) };
}

/// The first of the refusals of all rows, and of the one known before, which comes first at one place.
pub fn first_offence<R, T: Test<R>>(
    alloc: Global,
    test: &T,
    rows: &[R],
    known: Option<Refusal>,
) -> Result<Option<Refusal>, NoMemory>
    ensures { IfOk result (λ first. first ≡ earliest_from known (offences (T.offence_of test.now) rows.now)) }
{
    let mut first = known;
    for row in rows {
        first = earlier(first, test.offence(alloc, row)?);
    }
    Ok(first)
}

/// The earlier of two refusals; at one place the known one.
#[tactic(auto, using(crate::proofs::PlaceOrder::is_before_told))]
pub fn earlier(known: Option<Refusal>, found: Option<Refusal>) -> Option<Refusal>
    ensures { result ≡ earlier known found }
{
    match (known, found) {
        (Some(known), Some(found)) => {
            let comes_first = found.place.is_before(known.place);
            Some(if comes_first { found } else { known })
        }
        (None, found) => found,
        (known, None) => known,
    }
}

/// A refusal that names what it speaks of.
pub fn named(code: Code, place: Place, word: TextBuf) -> Refusal
    ensures { result ≡ named code place word }
{
    Refusal {
        code,
        place,
        word,
        low: 0,
        high: 0,
        length: 0,
    }
}
