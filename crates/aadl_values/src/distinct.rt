//! Words that differ.

ghost use Rattle.std.specs.Prelude.{◌≡◌, IfOk};
ghost use Rattle.aadl_values.specs.Distinct.{are_distinct};

use aadl_names::Index;
use hw_text::{ByteList, NoMemory};
use std::alloc::Global;

/// Whether no word is given twice.
#[tactic(auto, using(crate::proofs::SeenWords::keys_distinct))]
pub fn are_distinct(alloc: Global, words: &[ByteList]) -> Result<bool, NoMemory>
    ensures { IfOk result (λ distinct. distinct ≡ are_distinct words.now) }
{
    let mut seen = Index::new(alloc);
    for word in words {
        let (more, known) = seen.with(0, word.rows(), &[])?;
        if known {
            return Ok(false);
        }
        seen = more;
    }
    Ok(true)
}
