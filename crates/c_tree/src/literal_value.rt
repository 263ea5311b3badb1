//! What literals behind a minus are worth.

ghost use Rattle.std.specs.Prelude.{◌≡◌, pos, Some};
ghost use Rattle.c_tree.specs.Numerals.{numeral_value, numeral_type};
ghost use Rattle.c_tree.specs.Literals.{wrapped, negated, numeral_under, signed_value};

use crate::integer_type::IntegerType;
use crate::named::SignedLiteral;
use crate::numeral::Numeral;

impl SignedLiteral {
    /// Its value, which for an unsigned literal behind a minus is none below zero.
    pub fn value(&self) -> i128
        ensures { result ≡ signed_value self.now }
    {
        value_under(self.negative, &self.literal.numeral)
    }
}

/// The value of a literal, maybe behind a minus.
pub fn value_under(negative: bool, numeral: &Numeral) -> i128
    ensures { result ≡ numeral_under negative (numeral_type numeral.now.bytes) (numeral_value numeral.now.bytes) }
{
    if negative {
        negated(numeral.class(), numeral.value())
    } else {
        i128::from(numeral.value())
    }
}

/// The value of a literal of the type behind a minus.
fn negated(class: IntegerType, value: u64) -> i128
    ensures { result ≡ negated (Some class) value }
{
    match class {
        IntegerType::U32 | IntegerType::U64 => wrapped(class.largest(), value),
        _ => -i128::from(value),
    }
}

/// So many below zero, reduced by one more than the largest number.
fn wrapped(most: u64, value: u64) -> i128
    ensures { result ≡ pos (wrapped most value) }
{
    let modulus = u128::from(most) + 1;
    let reduced = modulus.saturating_sub(u128::from(value)) % modulus;
    reduced as i128
}
