//! The limit of queues.

ghost use Rattle.std.specs.Prelude.{◌≡◌, None, pos, option_map, option_and_then, IfOk};
ghost use Rattle.aadl_names.specs.declared.associations.AssociationRow.{AssociationRow as AssociationValue};
ghost use Rattle.aadl_names.specs.Offences.{earliest_from};
ghost use Rattle.aadl_values.specs.Layers.{sole_value};
ghost use Rattle.aadl_places.specs.declared.long_queues.LongQueues.{LongQueues as LongQueuesValue};
ghost use Rattle.aadl_places.specs.LongQueues.{limit, long_size_of, long_size, long_queue, long_queues};

use crate::property_places::has_effect;
use aadl_names::{AssociationRow, Scope, Test, first_offence};
use aadl_tree::{Association, PropertyValue};
use aadl_values::{Property, integer_between, property_named, sole_value};
use hw_text::{Code, NoMemory, Place, Refusal, TextBuf};
use std::alloc::Global;

/// The most members that a queue may have.
const LONGEST: u128 = 64;

/// The first Queue_Size in its place that is above the limit (Limit).
pub fn first_long_queue(alloc: Global, scope: &Scope<'_>) -> Result<Option<Refusal>, NoMemory>
    ensures { IfOk result (λ first. first ≡ earliest_from None (long_queues scope.now.references.now scope.now.resolved.now scope.now.tables.now)) }
{
    let test = LongQueues { scope: *scope };
    first_offence(alloc, &test, scope.tables.associations.rows(), None)
}

/// The test for such queues.
#[derive(Clone, Copy)]
struct LongQueues<'a> {
    scope: Scope<'a>,
}

impl<'a> Test<AssociationRow<'a>> for LongQueues<'a> {
    ghost offence_of = { λ (test : LongQueuesValue) (a : AssociationValue). long_queue test.scope.references.now test.scope.resolved.now test.scope.tables.now a };

    fn offence(
        &self,
        alloc: Global,
        row: &AssociationRow<'a>,
    ) -> Result<Option<Refusal>, NoMemory> {
        long_queue(alloc, &self.scope, row)
    }
}

fn long_queue(
    alloc: Global,
    scope: &Scope<'_>,
    row: &AssociationRow<'_>,
) -> Result<Option<Refusal>, NoMemory>
    ensures { IfOk result (λ found. found ≡ long_queue scope.now.references.now scope.now.resolved.now scope.now.tables.now row.now) }
{
    let name = &row.association.get().property;
    let Some(property) = property_named(name) else {
        return Ok(None);
    };
    let Some(size) = long_size(alloc, scope, property, row)? else {
        return Ok(None);
    };
    let mut kind = TextBuf::new(alloc);
    kind.word(b"queue")?;
    Ok(Some(limit(name.first.place, kind, size, LONGEST as i128)))
}

/// The size that an association gives to a queue, where it is above the limit.
fn long_size(
    alloc: Global,
    scope: &Scope<'_>,
    property: Property,
    row: &AssociationRow<'_>,
) -> Result<Option<i128>, NoMemory>
    ensures { IfOk result (λ size. size ≡ option_map pos (long_size scope.now.references.now scope.now.resolved.now scope.now.tables.now property row.now)) }
{
    match property {
        Property::QueueSize => {
            if has_effect(alloc, scope, Property::QueueSize, row)? {
                Ok(sole_long_size(row.association.get()))
            } else {
                Ok(None)
            }
        }
        _ => Ok(None),
    }
}

fn sole_long_size(association: &Association) -> Option<i128>
    ensures { result ≡ option_map pos (option_and_then long_size_of (sole_value association.now)) }
{
    long_size_of(sole_value(association)?)
}

/// A size above the limit.
#[tactic(auto, using(crate::proofs::LongSizes::at_most))]
fn long_size_of(value: &PropertyValue) -> Option<i128>
    ensures { result ≡ option_map pos (long_size_of value.now) }
{
    let size = integer_between(LONGEST + 1, (1 << 127) - 1, value)?;
    Some(size as i128)
}

/// The refusal of so many of a kind, where so many are allowed.
fn limit(place: Place, kind: TextBuf, counted: i128, allowed: i128) -> Refusal
    ensures { result ≡ limit place kind counted allowed }
{
    Refusal {
        code: Code::ModelLimit,
        place,
        word: kind,
        low: counted,
        high: allowed,
        length: 0,
    }
}
