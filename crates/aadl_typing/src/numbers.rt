//! The rows of the graph that the data of a model are.

ghost use Rattle.std.specs.Prelude.{◌≡◌};
ghost use Rattle.aadl_typing.specs.DataGraph.{base_number, class_number, part_number};

use aadl_names::{ClassRow, Tables};
use aadl_types::Part;
use hw_text::BaseType;

/// How many base types there are.
const BASE_TYPES: usize = 9;

/// The row of what data are made of.
pub fn part_number(tables: &Tables<'_>, part: Part) -> Option<usize>
    ensures { result ≡ part_number tables.now part }
{
    match part {
        Part::Base(base) => Some(base_number(base)),
        Part::Row(class) => class_number(tables, class),
    }
}

/// The types come behind the base types, and the implementations behind the types.
fn class_number(tables: &Tables<'_>, class: ClassRow) -> Option<usize>
    ensures { result ≡ class_number tables.now class }
{
    let types = tables.types.rows().len();
    let implementations = tables.implementations.rows().len();
    match class {
        ClassRow::Type(number) if number < types => Some(BASE_TYPES + number),
        ClassRow::Implementation(number) if number < implementations => {
            Some(BASE_TYPES + types + number)
        }
        _ => None,
    }
}

fn base_number(base: BaseType) -> usize
    ensures { result ≡ base_number base }
{
    match base {
        BaseType::Boolean => 0,
        BaseType::Integer8 => 1,
        BaseType::Integer16 => 2,
        BaseType::Integer32 => 3,
        BaseType::Integer64 => 4,
        BaseType::Unsigned8 => 5,
        BaseType::Unsigned16 => 6,
        BaseType::Unsigned32 => 7,
        BaseType::Unsigned64 => 8,
    }
}
