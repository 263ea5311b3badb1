//! Names that are given twice.

ghost use Rattle.std.specs.Prelude.{◌≡◌, ℕ, [], ◌∷◌, ◌++◌, map, IfOk};
ghost use Rattle.aadl_names.specs.Keys.{key};
ghost use Rattle.aadl_names.specs.Offences.{key_text, earliest_from, repeats_from};

use crate::index::Index;
use crate::keyed::Keyed;
use crate::told::{earlier, named};
use hw_text::{Code, NoMemory, Refusal, TextBuf};
use std::alloc::Global;

/// The rows of one name space so far, and the first refusal of a name that was given before.
#[derive(Drop)]
pub struct Repeated<'a> {
    pub seen: Index<'a>,
    pub first: Option<Refusal>,
}

impl<'a> Repeated<'a> {
    /// An empty name space, and a refusal that is known already.
    pub fn new(alloc: Global, known: Option<Refusal>) -> Self
        ensures seen { result.seen ≡ [] }
        ensures first { result.first ≡ known }
    {
        Repeated {
            seen: Index::new(alloc),
            first: known,
        }
    }

    /// The rows of a further table.
    pub fn with<R: Keyed>(self, alloc: Global, rows: &'a [R]) -> Result<Self, NoMemory>
        ensures seen { IfOk result (λ all. all.seen ≡ self.entry.seen ++ map R.key_of rows.now) }
        ensures first { IfOk result (λ all. all.first ≡ earliest_from self.entry.first (repeats_from R.key_of R.place_of self.entry.seen rows.now)) }
    {
        let mut all = self;
        for row in rows {
            all = all.with_row(alloc, row)?;
        }
        Ok(all)
    }

    fn with_row<R: Keyed>(self, alloc: Global, row: &'a R) -> Result<Self, NoMemory>
        ensures seen { IfOk result (λ all. all.seen ≡ self.entry.seen ++ R.key_of row.now ∷ []) }
        ensures first { IfOk result (λ all. all.first ≡ earliest_from self.entry.first (repeats_from R.key_of R.place_of self.entry.seen (row.now ∷ []))) }
    {
        let Repeated { seen, first } = self;
        let (owner, one, two) = row.key();
        let (seen, is_known) = seen.with(owner, one, two)?;
        if !is_known {
            return Ok(Repeated { seen, first });
        }
        let twice = named(Code::ModelDuplicate, row.place(), text(alloc, one, two)?);
        Ok(Repeated {
            seen,
            first: earlier(first, Some(twice)),
        })
    }
}

/// A name of one part or two.
fn text(alloc: Global, first: &[u8], second: &[u8]) -> Result<TextBuf, NoMemory>
    ensures { (owner : ℕ) → IfOk result (λ text. text ≡ key_text (key owner first.now second.now)) }
{
    let mut text = TextBuf::new(alloc);
    text.word(first)?;
    if !second.is_empty() {
        text.word(b".")?;
        text.word(second)?;
    }
    Ok(text)
}
