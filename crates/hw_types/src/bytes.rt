//! Values as bytes.

ghost use Rattle.std.specs.Prelude.{◌≡◌, ◌≤◌, ◌<◌, ◌+◌, ◌-◌, ◌++◌, length, IfOk, OnOk, IfSome};
ghost use Rattle.hw_types.specs.Scalar.{width_of};
ghost use Rattle.hw_types.specs.Value.{IsScalarValue, IsValueOf, code_of, number_in, held_in, value_in, zeros, bytes_of_number, bytes_for};

use crate::{FieldCell, Layout, Value};
use hw_text::{ByteList, NoMemory};
use std::alloc::Global;

/// The value that bytes stand for: none where there are too few or too many, or where a truth value or a choice is none.
pub fn value_of(alloc: Global, layout: &Layout, bytes: &[u8]) -> Result<Option<Value>, NoMemory>
    ensures value { IfOk result (λ value. value ≡ value_in layout.now bytes.now) }
    ensures fits { IfOk result (λ value. IfSome value (IsValueOf layout.now)) }
{
    if bytes.len() != layout.size() as usize {
        return Ok(None);
    }
    let mut value = Value::new(alloc);
    for cell in layout.scalars() {
        let Some(number) = scalar_in(*cell, bytes) else {
            return Ok(None);
        };
        value.push(number)?;
    }
    Ok(Some(value))
}

/// The bytes that stand for a value.
pub fn bytes_of(alloc: Global, layout: &Layout, value: &Value) -> Result<ByteList, NoMemory>
    requires { IsValueOf layout.now value.now }
    ensures { IfOk result (λ bytes. bytes ≡ bytes_for layout.now value.now) }
{
    let mut bytes = ByteList::new(alloc);
    let numbers = value.rows();
    for (place, cell) in layout.scalars().iter().enumerate() {
        push_scalar(&mut bytes, *cell, numbers[place])?;
    }
    pad(&mut bytes, layout.size())?;
    Ok(bytes)
}

/// What the bytes of a scalar mean.
fn scalar_in(cell: FieldCell, bytes: &[u8]) -> Option<i128>
    requires { cell.offset + width_of cell.scalar ≤ length bytes.now }
    ensures { result ≡ held_in cell bytes.now }
{
    let (_, tail) = bytes.split_at(cell.offset as usize);
    let (field, _) = tail.split_at(cell.scalar.width() as usize);
    cell.scalar.meaning(number_of(field))
}

/// The number that bytes are, the least first.
fn number_of(bytes: &[u8]) -> u64
    requires { length bytes.now ≤ 8 }
    ensures { result ≡ number_in bytes.now }
{
    match bytes.split_first() {
        Some((&first, rest)) => u64::from(first) + 256 * number_of(rest),
        None => 0,
    }
}

/// Appends the bytes of a scalar at its place.
fn push_scalar(bytes: &mut ByteList, cell: FieldCell, number: i128) -> Result<(), NoMemory>
    requires { IsScalarValue cell.scalar number }
    ensures { OnOk result (bytes.new ≡ bytes.old ++ (zeros (cell.offset - length bytes.old) ++
        bytes_of_number (width_of cell.scalar) (code_of cell.scalar number))) }
{
    pad(bytes, cell.offset)?;
    push_number(bytes, cell.scalar.width(), cell.scalar.code(number))
}

/// Appends so many bytes of a number, the least first.
fn push_number(bytes: &mut ByteList, width: u32, number: u64) -> Result<(), NoMemory>
    ensures { OnOk result (bytes.new ≡ bytes.old ++ bytes_of_number width number) }
{
    let mut rest = number;
    for _index in 0..width {
        bytes.push((rest % 256) as u8)?;
        rest /= 256;
    }
    Ok(())
}

/// Appends zeros up to a place.
fn pad(bytes: &mut ByteList, end: u32) -> Result<(), NoMemory>
    ensures { OnOk result (bytes.new ≡ bytes.old ++ zeros (end - length bytes.old)) }
{
    for _at in bytes.rows().len()..end as usize {
        bytes.push(0)?;
    }
    Ok(())
}
