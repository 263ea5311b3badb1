//! The Queue_Size of a port.

ghost use Rattle.std.specs.Prelude.{◌≡◌};
ghost use Rattle.aadl_tree.specs.declared.value.PropertyValue.{out-PropertyValue};
ghost use Rattle.hamr_cli.specs.Parts.{integer_in, quantity_in, size_in, is_set, is_plain, queue_size_of, queue_of};

use crate::package::words::is_word;
use crate::thin::feature::Way;
use aadl_tree::{Association, Number, Operator, PropertyValue, Quantity};

/// The way of an in port with these associations in its braces.
pub fn queue_of(own: &[Association]) -> Option<Way>
    ensures { result ≡ queue_of own.now }
{
    let (first, others) = own.split_first()?;
    if !others.is_empty() {
        return None;
    }
    Some(Way::Queued(queue_size_of(first)?))
}

fn queue_size_of(association: &Association) -> Option<u32>
    ensures { result ≡ queue_size_of association.now }
{
    if is_word(b"queue_size", &association.property) && is_plain(association) {
        size_in(&association.first)
    } else {
        None
    }
}

/// Whether the property is set to one value, for all that the association stands in.
fn is_plain(association: &Association) -> bool
    ensures { result ≡ is_plain association.now }
{
    is_set(association.operator)
        && !association.constant
        && association.others.is_empty()
        && association.applies_to.is_empty()
}

fn is_set(operator: Operator) -> bool
    ensures { result ≡ is_set operator }
{
    match operator {
        Operator::Set => true,
        Operator::Append => false,
    }
}

fn size_in(value: &PropertyValue) -> Option<u32>
    ensures { result ≡ size_in (out-PropertyValue value.now) }
{
    match value {
        PropertyValue::Quantity(quantity) => quantity_in(quantity),
        _ => None,
    }
}

fn quantity_in(quantity: &Quantity) -> Option<u32>
    ensures { result ≡ quantity_in quantity.now }
{
    if quantity.sign.is_none() && quantity.unit.is_none() {
        integer_in(&quantity.number)
    } else {
        None
    }
}

fn integer_in(number: &Number) -> Option<u32>
    ensures { result ≡ integer_in number.now }
{
    match number {
        Number::Integer(integer) => {
            let value = integer.value();
            if value < 1 << 32 {
                Some(value as u32)
            } else {
                None
            }
        }
        Number::Real(_) => None,
    }
}
