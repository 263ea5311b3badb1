//! Integers as values of properties.

ghost use Rattle.std.specs.Prelude.{◌≡◌};
ghost use Rattle.aadl_values.specs.Times.{integer_of, integer_between};
ghost use Rattle.aadl_values.specs.Columns.{queue_size_of, dimension_of};

use crate::layer::bracketed;
use crate::times::unsigned_in;
use aadl_tree::PropertyValue;

/// An integer without a sign, a unit and a range.
fn integer_of(value: &PropertyValue) -> Option<u128>
    ensures { result ≡ integer_of value.now }
{
    match value {
        PropertyValue::Quantity(quantity) => {
            if quantity.unit.is_some() {
                None
            } else {
                unsigned_in(quantity)
            }
        }
        _ => None,
    }
}

/// One of at least `least` and at most `most`.
pub fn integer_between(least: u128, most: u128, value: &PropertyValue) -> Option<u128>
    ensures { result ≡ integer_between least most value.now }
{
    let number = integer_of(value)?;
    if least <= number && number <= most {
        Some(number)
    } else {
        None
    }
}

/// An integer from 1 on.
pub fn queue_size_of(value: &PropertyValue) -> Option<u128>
    ensures { result ≡ queue_size_of value.now }
{
    integer_between(1, (1 << 127) - 1, value)
}

/// The one integer in brackets, of at least 1 and of 32 bits.
pub fn dimension_of(value: &PropertyValue) -> Option<u32>
    ensures { result ≡ dimension_of value.now }
{
    let number = integer_between(1, u128::from(u32::MAX), bracketed(value)?)?;
    Some(number as u32)
}
