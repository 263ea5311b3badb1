//! Whole numbers in base ten.

ghost use Rattle.std.specs.Prelude.{◌≡◌, ◌<◌, ◌^◌, SomeIff};
ghost use Rattle.hw_text.specs.Text.{with_digit, decimal};

use crate::bytes::is_digit;

/// The largest whole number that a text may have, 2^127 - 1.
const LARGEST: u128 = 170141183460469231731687303715884105727;

/// The number that the digits spell, over any underscores, where it is below 2^127.
pub fn decimal(digits: &[u8]) -> Option<u128>
    ensures { SomeIff result (decimal 0 digits.now < 2 ^ 127) (decimal 0 digits.now) }
{
    let mut number: u128 = 0;
    for &digit in digits {
        let Some(next) = with_digit(number, digit) else {
            return None;
        };
        number = next;
    }
    Some(number)
}

/// The number, with one more digit behind it.
fn with_digit(number: u128, digit: u8) -> Option<u128>
    requires { number < 2 ^ 127 }
    ensures { SomeIff result (with_digit number digit < 2 ^ 127) (with_digit number digit) }
{
    if !is_digit(digit) {
        return Some(number);
    }
    if number > LARGEST / 10 {
        return None;
    }
    let next = number * 10 + u128::from(digit - b'0');
    if next > LARGEST {
        return None;
    }
    Some(next)
}
