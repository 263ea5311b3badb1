//! How many domains and processors there may be.

ghost use Rattle.std.specs.Prelude.{◌≡◌, IfOk};
ghost use Rattle.aadl_timing.specs.Limits.{limit, kind_of, allowed_of, over};

use crate::instance::Instance;
use aadl_domains::{Sought, listed};
use hw_text::{Code, NoMemory, Place, Refusal, TextBuf};
use std::alloc::Global;

impl<'a> Instance<'a> {
    /// The refusal of an instance that has more components of this kind than are allowed: at the first
    /// of those that are too many.
    pub fn over(
        &self,
        alloc: Global,
        sought: Sought,
        root: usize,
    ) -> Result<Option<Refusal>, NoMemory>
        ensures { IfOk result (λ refusal. refusal ≡ over sought self.now.tables.now self.now.resolved.now root) }
    {
        let allowed = allowed_of(sought);
        let found = listed(alloc, self.tables, self.resolved, sought, root, allowed + 1)?;
        let Some(path) = found.first.rows().get(allowed as usize) else {
            return Ok(None);
        };
        match self.last_part(path.rows()) {
            Some(part) => {
                let kind = kind_of(sought);
                let refusal = limit(alloc, part.name.place, kind, found.count, allowed)?;
                Ok(Some(refusal))
            }
            None => Ok(None),
        }
    }
}

/// The word that a refusal tells.
#[tactic(auto, unfolding(crate::specs::Limits::kind_of))]
fn kind_of(sought: Sought) -> &'static str
    ensures { result.now ≡ kind_of sought }
{
    match sought {
        Sought::Domain => "domains",
        Sought::Processor => "processors",
    }
}

fn allowed_of(sought: Sought) -> u32
    ensures { result ≡ allowed_of sought }
{
    match sought {
        Sought::Domain => 60,
        Sought::Processor => 1,
    }
}

/// The refusal that tells how many there are of what, and how many are allowed.
pub fn limit(
    alloc: Global,
    place: Place,
    kind: &str,
    many: u64,
    allowed: u32,
) -> Result<Refusal, NoMemory>
    ensures { IfOk result (λ refusal. refusal ≡ limit place kind.now many allowed) }
{
    let mut word = TextBuf::new(alloc);
    word.word(kind.as_bytes())?;
    Ok(Refusal {
        code: Code::ModelLimit,
        place,
        word,
        low: i128::from(many),
        high: i128::from(allowed),
        length: 0,
    })
}
