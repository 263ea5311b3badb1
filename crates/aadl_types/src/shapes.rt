//! The shapes of all that a model declares.

ghost use Rattle.std.specs.Prelude.{◌≡◌, IfOk};
ghost use Rattle.aadl_types.specs.Shaping.{shapes_of};

use crate::shape::Shape;
use crate::shaping::{implementation_shape, type_shape};
use aadl_names::{References, Tables};
use hw_text::{NoMemory, Rows};
use std::alloc::Global;

/// The shape of each type and each implementation; what is no data has none.
#[derive(Debug, Drop)]
pub struct Shapes {
    pub types: Rows<Option<Shape>>,
    pub implementations: Rows<Option<Shape>>,
}

impl Shapes {
    pub fn of(
        alloc: Global,
        tables: &Tables<'_>,
        references: &References<'_>,
    ) -> Result<Shapes, NoMemory>
        ensures { IfOk result (λ shapes. shapes ≡ shapes_of references.now tables.now) }
    {
        Ok(Shapes {
            types: types(alloc, tables, references)?,
            implementations: implementations(alloc, tables, references)?,
        })
    }
}

fn types(
    alloc: Global,
    tables: &Tables<'_>,
    references: &References<'_>,
) -> Result<Rows<Option<Shape>>, NoMemory>
    ensures { IfOk result (λ shapes. shapes ≡ (shapes_of references.now tables.now).types) }
{
    let mut shapes = Rows::new(alloc);
    for declared in tables.types.rows() {
        shapes.push(type_shape(alloc, tables, references, declared.get())?)?;
    }
    Ok(shapes)
}

fn implementations(
    alloc: Global,
    tables: &Tables<'_>,
    references: &References<'_>,
) -> Result<Rows<Option<Shape>>, NoMemory>
    ensures { IfOk result (λ shapes. shapes ≡ (shapes_of references.now tables.now).implementations) }
{
    let mut shapes = Rows::new(alloc);
    for declared in tables.implementations.rows() {
        shapes.push(implementation_shape(alloc, tables, references, declared.get())?)?;
    }
    Ok(shapes)
}
