//! Refusals at a name, and of too many scalars.

ghost use Rattle.std.specs.Prelude.{◌≡◌, IfOk};
ghost use Rattle.aadl_names.specs.Offences.{named};
ghost use Rattle.aadl_typing.specs.PayloadWidths.{class_place, too_many_scalars};

use aadl_names::named;
use aadl_tree::{Class, Named};
use hw_text::{Code, NoMemory, Place, Refusal, TextBuf};
use std::alloc::Global;

/// The most scalars that a payload may have.
const SCALARS_ALLOWED: i128 = 256;

/// A refusal at a name, which it tells.
pub fn at_name(alloc: Global, code: Code, name: &Named) -> Result<Refusal, NoMemory>
    ensures { IfOk result (λ refusal. refusal ≡ named code name.now.place name.now.name) }
{
    let mut word = TextBuf::new(alloc);
    word.word(name.name.rows())?;
    Ok(named(code, name.place, word))
}

pub fn too_many_scalars(alloc: Global, place: Place, count: u64) -> Result<Refusal, NoMemory>
    ensures { IfOk result (λ refusal. refusal ≡ too_many_scalars place count) }
{
    let mut word = TextBuf::new(alloc);
    word.word(b"scalars")?;
    Ok(Refusal {
        code: Code::ModelLimit,
        place,
        word,
        low: i128::from(count),
        high: SCALARS_ALLOWED,
        length: 0,
    })
}

/// Where a classifier begins.
pub fn place_of(class: &Class) -> Place
    ensures { result ≡ class_place class.now }
{
    match class {
        Class::Base(place, _) => *place,
        Class::Model(own) => own.place,
    }
}
