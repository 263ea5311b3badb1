//! Refusals that name a word of the model.

ghost use Rattle.std.specs.Prelude.{◌≡◌, Some, IfOk};
ghost use Rattle.aadl_names.specs.Offences.{named};

use aadl_names::named;
use hw_text::{Code, NoMemory, Place, Refusal, TextBuf};
use std::alloc::Global;

/// The refusal of this word.
pub fn refused(
    alloc: Global,
    code: Code,
    place: Place,
    word: &[u8],
) -> Result<Option<Refusal>, NoMemory>
    ensures { IfOk result (λ refusal. refusal ≡ Some (named code place word.now)) }
{
    let mut text = TextBuf::new(alloc);
    text.word(word)?;
    Ok(Some(named(code, place, text)))
}
