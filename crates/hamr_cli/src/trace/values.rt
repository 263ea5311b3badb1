//! The values of a trace.

ghost use Rattle.std.specs.Prelude.{◌≡◌, ◌≤◌, ◌++◌, ◌∷◌, [], ℕ, ℤ, List, IfOk, IfSome, IsSomeAnd, MatchResult, All};
ghost use Rattle.hamr_cli.specs.PortType.{IsPortValue};
ghost use Rattle.hamr_cli.specs.TraceFault.{IsMemory};
ghost use Rattle.hamr_cli.specs.TraceText.{value_text, values_text, list_text};
ghost use Rattle.hamr_cli.specs.TraceWord.{EndsWord};

use crate::trace::fault::LineFault;
use crate::trace::numbers::integer_of;
use crate::trace::words::{behind, split_word};
use hw_types::{Value, ValueList};
use std::alloc::Global;

/// What stands behind the comma and the space between two values.
fn behind_comma(bytes: &[u8]) -> Option<&[u8]>
    ensures found { IfSome result (λ rest. bytes.now ≡ 44 ∷ 32 ∷ rest.now) }
    ensures only { (more : List ℕ)
        → bytes.now ≡ 44 ∷ 32 ∷ more → IsSomeAnd result (λ rest. rest.now ≡ more) }
{
    behind(behind(bytes, b',')?, b' ')
}

/// The Integer_32 in front.
pub fn read_value(alloc: Global, bytes: &[u8]) -> Result<(Value, &[u8]), LineFault>
    ensures typed { IfOk result (λ r. IsPortValue r.0) }
    ensures found { IfOk result (λ r. bytes.now ≡ value_text r.0 ++ r.1.now) }
    ensures only { (value : List ℤ) (more : List ℕ) → IsPortValue value → EndsWord more
        → bytes.now ≡ value_text value ++ more
        → MatchResult result (λ r. (r.0 ≡ value) × (r.1.now ≡ more)) IsMemory }
{
    let (word, rest) = split_word(bytes);
    let Some(number) = integer_of(word) else {
        return Err(LineFault::BadLine);
    };
    let mut value = Value::new(alloc);
    value.push(number)?;
    Ok((value, rest))
}

/// One value or more, up to the closing bracket.
fn read_values(alloc: Global, bytes: &[u8]) -> Result<(ValueList, &[u8]), LineFault>
    ensures typed { IfOk result (λ r. All IsPortValue r.0) }
    ensures found { IfOk result (λ r. bytes.now ≡ values_text r.0 ++ 93 ∷ r.1.now) }
    ensures only { (value : List ℤ) (values : List (List ℤ)) (more : List ℕ)
        → All IsPortValue (value ∷ values)
        → bytes.now ≡ values_text (value ∷ values) ++ 93 ∷ more
        → MatchResult result (λ r. (r.0 ≡ value ∷ values) × (r.1.now ≡ more)) IsMemory }
{
    let (first, mut rest) = read_value(alloc, bytes)?;
    let mut values = ValueList::new(alloc);
    values.push(first)?;
    while let Some(after) = behind_comma(rest) {
        let (value, next) = read_value(alloc, after)?;
        values.push(value)?;
        rest = next;
    }
    match behind(rest, b']') {
        Some(after) => Ok((values, after)),
        None => Err(LineFault::BadLine),
    }
}

/// The values in brackets in front.
pub fn read_list(alloc: Global, bytes: &[u8]) -> Result<(ValueList, &[u8]), LineFault>
    ensures typed { IfOk result (λ r. All IsPortValue r.0) }
    ensures found { IfOk result (λ r. bytes.now ≡ list_text r.0 ++ r.1.now) }
    ensures only { (values : List (List ℤ)) (more : List ℕ) → All IsPortValue values
        → bytes.now ≡ list_text values ++ more
        → MatchResult result (λ r. (r.0 ≡ values) × (r.1.now ≡ more)) IsMemory }
{
    let Some(inner) = behind(bytes, b'[') else {
        return Err(LineFault::BadLine);
    };
    match behind(inner, b']') {
        Some(rest) => Ok((ValueList::new(alloc), rest)),
        None => read_values(alloc, inner),
    }
}
