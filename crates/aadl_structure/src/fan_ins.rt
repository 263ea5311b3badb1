//! Destinations to which a connection leads already.

ghost use Rattle.std.specs.Prelude.{◌≡◌, None, map, IfOk};
ghost use Rattle.aadl_names.specs.Offences.{earliest_from};
ghost use Rattle.aadl_structure.specs.FanIns.{destination, fan_in, fan_in_offences};

use crate::destination::Destination;
use crate::repeats::first_repeated;
use aadl_names::{Held, PartRow, Scope, named};
use aadl_tree::Connection;
use hw_text::{Code, NoMemory, Refusal, Rows};
use std::alloc::Global;

/// The first destination that an earlier connection of its implementation has.
#[tactic(auto, using(crate::proofs::FanInsTold::fan_ins_none, crate::proofs::FanInsTold::fan_ins_some))]
pub fn first_fan_in(alloc: Global, scope: &Scope<'_>) -> Result<Option<Refusal>, NoMemory>
    ensures { IfOk result (λ first. first ≡ earliest_from None (fan_in_offences scope.now.tables.now)) }
{
    let destinations = destinations(alloc, scope.tables.connections.rows())?;
    match first_repeated(alloc, destinations.rows(), None)? {
        Some(twice) => Ok(Some(fan_in(twice))),
        None => Ok(None),
    }
}

fn destinations<'a>(
    alloc: Global,
    connections: &[PartRow<'a, Connection>],
) -> Result<Rows<Destination<'a>>, NoMemory>
    ensures { IfOk result (λ destinations. destinations ≡ map destination connections.now) }
{
    let mut destinations = Rows::new(alloc);
    for row in connections {
        destinations.push(Destination {
            implementation: row.owner,
            end: Held::new(&row.part.get().to),
        })?;
    }
    Ok(destinations)
}

/// What is told of a destination that is there twice.
fn fan_in(twice: Refusal) -> Refusal
    ensures { result ≡ fan_in twice }
{
    named(Code::ModelFanIn, twice.place, twice.word)
}
