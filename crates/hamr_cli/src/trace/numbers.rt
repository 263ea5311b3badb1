//! Numbers of a trace: decimal, without a needless zero or plus.

ghost use Rattle.std.specs.Prelude.{◌≡◌, ◌↔◌, ◌<◌, ◌^◌, ℕ, ℤ, Some, IfSome, IsTrue, length, slice_index};
ghost use Rattle.std.specs.Fmt.{decimal, signed_decimal};
ghost use Rattle.hw_types.specs.Value.{IsScalarValue};
ghost use Rattle.hw_types.specs.declared.scalar.Scalar.TheVariants.{I32};
ghost use Rattle.hamr_cli.specs.TraceNumber.{number_from};

use crate::trace::words::behind;

/// One more than the largest value of an Integer_32.
const INTEGER_32_END: u64 = 1 << 31;

/// The number before which no minus stands.
const UNSIGNED: u64 = 0;

/// Whether the word has a byte, and a zero in front only as its one digit.
fn is_plain(word: &[u8]) -> bool
    ensures { IsTrue result
        ↔ ((0 < length word.now) × (slice_index word.now 0 ≡ 48 → length word.now ≡ 1)) }
{
    word.len() > 0 && (word[0] != b'0' || word.len() == 1)
}

/// The number that a word of digits writes, where it is below 2^64.
fn digits_of(word: &[u8]) -> Option<u64>
    ensures { result ≡ number_from 0 word.now }
{
    let mut number: u64 = 0;
    for &byte in word {
        if !byte.is_ascii_digit() {
            return None;
        }
        number = number.checked_mul(10)?.checked_add(u64::from(byte - b'0'))?;
    }
    Some(number)
}

/// The number that a word writes, where it is below 2^64.
pub fn number_of(word: &[u8]) -> Option<u64>
    ensures found { IfSome result (λ n. word.now ≡ decimal n) }
    ensures only { (n : ℕ) → n < 2 ^ 64 → word.now ≡ decimal n → result ≡ Some n }
{
    if is_plain(word) {
        digits_of(word)
    } else {
        None
    }
}

/// The Integer_32 that a word writes.
pub fn integer_of(word: &[u8]) -> Option<i128>
    ensures fits { IfSome result (IsScalarValue I32) }
    ensures found { IfSome result (λ z. word.now ≡ signed_decimal z) }
    ensures only { (z : ℤ) → IsScalarValue I32 z → word.now ≡ signed_decimal z → result ≡ Some z }
{
    match behind(word, b'-') {
        Some(digits) => {
            let number = number_of(digits)?;
            if number == UNSIGNED || number > INTEGER_32_END {
                return None;
            }
            Some(-i128::from(number))
        }
        None => {
            let number = number_of(word)?;
            if number >= INTEGER_32_END {
                return None;
            }
            Some(i128::from(number))
        }
    }
}
