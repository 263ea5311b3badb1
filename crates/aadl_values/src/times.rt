//! Times as values of properties.

ghost use Rattle.std.specs.Prelude.{◌≡◌};
ghost use Rattle.aadl_values.specs.Times.{unsigned_in, time_in, time_of_units, time_of, positive_time_of, time_range_of};

use crate::time_range::TimeRange;
use crate::unit::{TimeUnit, unit_named};
use aadl_tree::{Number, PropertyValue, Quantity};

/// An integer without a sign, whatever the unit.
pub fn unsigned_in(quantity: &Quantity) -> Option<u128>
    ensures { result ≡ unsigned_in quantity.now }
{
    if quantity.sign.is_some() {
        return None;
    }
    match &quantity.number {
        Number::Integer(number) => Some(number.value()),
        Number::Real(_) => None,
    }
}

/// So many of a unit in picoseconds, where that is below 2^64.
fn time_of_units(many: u128, unit: TimeUnit) -> Option<u64>
    ensures { result ≡ time_of_units many unit }
{
    let time = many.checked_mul(unit.picoseconds())?;
    if time <= u128::from(u64::MAX) {
        Some(time as u64)
    } else {
        None
    }
}

fn time_in(quantity: &Quantity) -> Option<u64>
    ensures { result ≡ time_in quantity.now }
{
    let many = unsigned_in(quantity)?;
    match &quantity.unit {
        Some(name) => time_of_units(many, unit_named(name.rows())?),
        None => None,
    }
}

/// A time in picoseconds: an integer without a sign and a unit.
pub fn time_of(value: &PropertyValue) -> Option<u64>
    ensures { result ≡ time_of value.now }
{
    match value {
        PropertyValue::Quantity(quantity) => time_in(quantity),
        _ => None,
    }
}

/// A time above 0.
pub fn positive_time_of(value: &PropertyValue) -> Option<u64>
    ensures { result ≡ positive_time_of value.now }
{
    let time = time_of(value)?;
    if 0 < time { Some(time) } else { None }
}

/// Two times, the first not above the second.
pub fn time_range_of(value: &PropertyValue) -> Option<TimeRange>
    ensures { result ≡ time_range_of value.now }
{
    match value {
        PropertyValue::Range(from, to) => {
            let low = time_in(from)?;
            let high = time_in(to)?;
            if low <= high {
                Some(TimeRange { low, high })
            } else {
                None
            }
        }
        _ => None,
    }
}
