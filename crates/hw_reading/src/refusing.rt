//! Refusals by kind: of a place alone, with a word, and of what there is too much of.

ghost use Rattle.std.specs.Prelude.{◌≡◌, IfOk};
ghost use Rattle.hw_reading.specs.Refusing.{plain, named, limit};

use hw_text::{Code, NoMemory, Place, Refusal, TextBuf};
use std::alloc::Global;

/// A refusal that tells its place alone.
pub fn plain(alloc: Global, code: Code, place: Place) -> Refusal
    ensures { result ≡ plain code place }
{
    told(code, place, TextBuf::new(alloc))
}

/// A refusal that tells a word.
pub fn named(alloc: Global, code: Code, place: Place, word: &[u8]) -> Result<Refusal, NoMemory>
    ensures { IfOk result (λ r. r ≡ named code place word.now) }
{
    let mut name = TextBuf::new(alloc);
    name.word(word)?;
    Ok(told(code, place, name))
}

/// What there is more of than is allowed, how much, and how much is allowed.
pub fn limit(
    alloc: Global,
    code: Code,
    kind: &str,
    place: Place,
    counted: usize,
    allowed: usize,
) -> Result<Refusal, NoMemory>
    ensures { IfOk result (λ r. r ≡ limit code kind.now place counted allowed) }
{
    let mut refusal = named(alloc, code, place, kind.as_bytes())?;
    refusal.low = counted as i128;
    refusal.high = allowed as i128;
    Ok(refusal)
}

fn told(code: Code, place: Place, word: TextBuf) -> Refusal
    ensures { result ≡ named code place word }
{
    Refusal {
        code,
        place,
        word,
        low: 0,
        high: 0,
        length: 0,
    }
}
