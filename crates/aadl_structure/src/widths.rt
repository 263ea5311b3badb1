//! Threads and devices of too many ports.

ghost use Rattle.std.specs.Prelude.{◌≡◌, None, IfOk};
ghost use Rattle.aadl_names.specs.Offences.{earliest_from};
ghost use Rattle.aadl_structure.specs.Widths.{is_ported, too_many, width_offence, width_offences};

use aadl_names::{Held, Scope, Test, first_offence};
use aadl_tree::{Category, ComponentType};
use hw_text::{Code, NoMemory, Place, Refusal, TextBuf};
use std::alloc::Global;

/// How many ports a thread or a device may have.
const ALLOWED: usize = 32;

/// Whether types have not too many ports.
#[derive(Clone, Copy)]
struct Widths;

/// The first port of a thread or device type that has as many as it may have before that.
pub fn first_wide(alloc: Global, scope: &Scope<'_>) -> Result<Option<Refusal>, NoMemory>
    ensures { IfOk result (λ first. first ≡ earliest_from None (width_offences scope.now.tables.now)) }
{
    let first = first_offence(alloc, &Widths, scope.tables.types.rows(), None)?;
    Ok(first)
}

impl<'a> Test<Held<'a, ComponentType>> for Widths {
    ghost offence_of = { λ _. width_offence };

    fn offence(
        &self,
        alloc: Global,
        row: &Held<'a, ComponentType>,
    ) -> Result<Option<Refusal>, NoMemory> {
        let declared = row.get();
        if !is_ported(declared.category) {
            return Ok(None);
        }
        let ports = declared.features.rows();
        match ports.get(ALLOWED) {
            Some(over) => Ok(Some(too_many(alloc, ports.len(), over.name.place)?)),
            None => Ok(None),
        }
    }
}

/// The refusal of so many ports, at the first that is too much.
fn too_many(alloc: Global, counted: usize, place: Place) -> Result<Refusal, NoMemory>
    ensures { IfOk result (λ refusal. refusal ≡ too_many counted place) }
{
    let mut word = TextBuf::new(alloc);
    word.word(b"ports")?;
    Ok(Refusal {
        code: Code::ModelLimit,
        place,
        word,
        low: counted as i128,
        high: ALLOWED as i128,
        length: 0,
    })
}

/// Whether the ports of components of the category are counted.
fn is_ported(category: Category) -> bool
    ensures { result ≡ is_ported category }
{
    match category {
        Category::Thread | Category::Device => true,
        _ => false,
    }
}
