//! The types that every model has.

ghost use Rattle.std.specs.Prelude.{◌≡◌, ◌≤◌, length, IfOk};
ghost use Rattle.arch_model.specs.BaseTypes.{base_rows, base_row, nothing_row, rows_from, scalar_of};

use crate::{Form, NumberList, TypeRow, TypeRowList};
use hw_text::{BaseType, NoMemory, TextBuf, WordList};
use hw_types::{Layout, Scalar};
use std::alloc::Global;

/// The base types, in the order of their rows.
static BASE_TYPES: [BaseType; 9] = [
    BaseType::Boolean,
    BaseType::Integer8,
    BaseType::Integer16,
    BaseType::Integer32,
    BaseType::Integer64,
    BaseType::Unsigned8,
    BaseType::Unsigned16,
    BaseType::Unsigned32,
    BaseType::Unsigned64,
];

/// The place of the type without a value, which event ports carry.
pub const EVENT_TYPE: u32 = 9;

/// The rows with which the types of every architecture begin: the base types, and the type of
/// events.
#[tactic(auto, unfolding(crate::specs::BaseTypes::base_rows))]
pub fn base_rows(alloc: Global) -> Result<TypeRowList, NoMemory>
    ensures { IfOk result (λ rows. rows ≡ base_rows) }
{
    let mut rows = listed(alloc, &BASE_TYPES)?;
    rows.push(event_row(alloc)?)?;
    Ok(rows)
}

/// The scalar that a base type is.
pub fn scalar_of(base: BaseType) -> Scalar
    ensures { result ≡ scalar_of base }
{
    match base {
        BaseType::Boolean => Scalar::Flag,
        BaseType::Integer8 => Scalar::I8,
        BaseType::Integer16 => Scalar::I16,
        BaseType::Integer32 => Scalar::I32,
        BaseType::Integer64 => Scalar::I64,
        BaseType::Unsigned8 => Scalar::U8,
        BaseType::Unsigned16 => Scalar::U16,
        BaseType::Unsigned32 => Scalar::U32,
        BaseType::Unsigned64 => Scalar::U64,
    }
}

/// The rows of these types.
fn listed(alloc: Global, types: &[BaseType]) -> Result<TypeRowList, NoMemory>
    requires { length types.now ≤ 9 }
    ensures { IfOk result (λ rows. rows ≡ rows_from 0 types.now) }
{
    let mut rows = TypeRowList::new(alloc);
    for (place, base) in types.iter().enumerate() {
        rows.push(row_of(alloc, place as u32, *base)?)?;
    }
    Ok(rows)
}

/// The row of a base type.
fn row_of(alloc: Global, place: u32, base: BaseType) -> Result<TypeRow, NoMemory>
    ensures { IfOk result (λ row. row ≡ base_row place base) }
{
    let mut name = TextBuf::new(alloc);
    name.word(base.name().as_bytes())?;
    let scalar = scalar_of(base);
    Ok(TypeRow {
        name,
        form: Form::One(scalar),
        layout: Layout::of_scalar(alloc, scalar)?,
        words: WordList::new(alloc),
        parts: NumberList::new(alloc),
        same: place,
    })
}

/// The row of the type without a value.
fn event_row(alloc: Global) -> Result<TypeRow, NoMemory>
    ensures { IfOk result (λ row. row ≡ nothing_row) }
{
    Ok(TypeRow {
        name: TextBuf::new(alloc),
        form: Form::Nothing,
        layout: Layout::nothing(alloc),
        words: WordList::new(alloc),
        parts: NumberList::new(alloc),
        same: EVENT_TYPE,
    })
}
