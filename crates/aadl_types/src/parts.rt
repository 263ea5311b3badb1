//! The data that classifiers mean.

ghost use Rattle.std.specs.Prelude.{◌≡◌, [], IfOk};
ghost use Rattle.aadl_types.specs.Shaping.{part_of, base_part, parts_from};

use crate::shape::Part;
use aadl_names::{References, Tables};
use aadl_tree::{Association, Category, Class, Subcomponent};
use aadl_values::{classifier_of, sole_value};
use hw_text::{NoMemory, Rows};
use std::alloc::Global;

/// The data that a classifier means.
pub fn part_of(
    alloc: Global,
    tables: &Tables<'_>,
    references: &References<'_>,
    class: &Class,
) -> Result<Option<Part>, NoMemory>
    ensures { IfOk result (λ part. part ≡ part_of references.now tables.now class.now) }
{
    match class {
        Class::Base(_, base) => Ok(Some(Part::Base(*base))),
        Class::Model(_) => {
            let found = references.means(alloc, tables, Category::Data, class)?;
            Ok(found.map(Part::Row))
        }
    }
}

/// The data that the value of Base_Type means.
pub fn base_part(
    alloc: Global,
    tables: &Tables<'_>,
    references: &References<'_>,
    association: &Association,
) -> Result<Option<Part>, NoMemory>
    ensures { IfOk result (λ part. part ≡ base_part references.now tables.now association.now) }
{
    let Some(value) = sole_value(association) else {
        return Ok(None);
    };
    match classifier_of(value) {
        Some(class) => part_of(alloc, tables, references, class),
        None => Ok(None),
    }
}

/// The data that the subcomponents mean, where each means data.
pub fn parts_of(
    alloc: Global,
    tables: &Tables<'_>,
    references: &References<'_>,
    subcomponents: &[Subcomponent],
) -> Result<Option<Rows<Part>>, NoMemory>
    ensures { IfOk result (λ parts. parts ≡ parts_from references.now tables.now [] subcomponents.now) }
{
    let mut parts = Rows::new(alloc);
    for subcomponent in subcomponents {
        let Some(part) = part_of(alloc, tables, references, &subcomponent.class)? else {
            return Ok(None);
        };
        parts.push(part)?;
    }
    Ok(Some(parts))
}
