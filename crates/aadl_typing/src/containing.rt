//! What contains itself.

ghost use Rattle.std.specs.Prelude.{◌≡◌, option_and_then, slice_get, IfOk, MatchOption};
ghost use Rattle.aadl_loops.specs.Loops.{HasNoLoop};
ghost use Rattle.aadl_typing.specs.Containing.{edges_of, refusal_of, IsFirstItself};

use crate::edges::edges_of;
use crate::refusals::at_name;
use aadl_loops::first_on_loop;
use aadl_names::{Scope, named};
use aadl_tree::{Declaration, Package};
use hw_text::{Code, NoMemory, Refusal};
use std::alloc::Global;

/// The first type or implementation in the text that contains itself.
pub fn first_containing_itself(
    alloc: Global,
    model: &Package,
    scope: &Scope<'_>,
) -> Result<Option<Refusal>, NoMemory>
    ensures { IfOk result (λ found. MatchOption found (HasNoLoop (edges_of scope.now.references.now scope.now.tables.now model.now.declarations))
        (IsFirstItself scope.now.references.now scope.now.tables.now model.now)) }
{
    let declarations = model.declarations.rows();
    let edges = edges_of(alloc, scope, declarations)?;
    match first_on_loop(alloc, edges.rows())? {
        Some(place) => {
            let found = refusal_at(alloc, declarations, place)?;
            Ok(found)
        }
        None => Ok(None),
    }
}

/// The refusal of the declaration at a place.
fn refusal_at(
    alloc: Global,
    declarations: &[Declaration],
    place: usize,
) -> Result<Option<Refusal>, NoMemory>
    ensures { IfOk result (λ refusal. refusal ≡ option_and_then refusal_of (slice_get declarations.now place)) }
{
    let code = Code::ModelContainsItself;
    match declarations.get(place) {
        Some(Declaration::Type(declared)) => Ok(Some(at_name(alloc, code, &declared.name)?)),
        Some(Declaration::Implementation(declared)) => {
            let name = &declared.name;
            Ok(Some(named(code, name.component_type.place, name.text(alloc)?)))
        }
        _ => Ok(None),
    }
}
