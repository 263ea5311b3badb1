//! The shape of a data declaration.

ghost use Rattle.std.specs.Prelude.{◌≡◌, option_copied, option_and_then, IfOk};
ghost use Rattle.aadl_types.specs.Shaping.{enum_shape, array_shape, based_shape, struct_shape, shape_decided, deciding_with, declared_type, type_shape, implementation_shape};

use crate::deciding::Deciding;
use crate::declared_data::is_data;
use crate::parts::{base_part, parts_of};
use crate::shape::{Part, Shape};
use aadl_names::{Held, References, Tables};
use aadl_tree::{Association, ComponentType, Implementation, Subcomponent};
use aadl_values::{dimension_of, enumerators_of, sole_value};
use hw_text::NoMemory;
use std::alloc::Global;

/// The shape of a component type, which is none where it is no data.
pub fn type_shape(
    alloc: Global,
    tables: &Tables<'_>,
    references: &References<'_>,
    declared: &ComponentType,
) -> Result<Option<Shape>, NoMemory>
    ensures { IfOk result (λ shape. shape ≡ type_shape references.now tables.now declared.now) }
{
    if !is_data(declared.category) {
        return Ok(None);
    }
    let deciding = Deciding::among(declared.properties.rows());
    shape_decided(alloc, tables, references, &deciding, &[])
}

/// The shape of an implementation.
pub fn implementation_shape(
    alloc: Global,
    tables: &Tables<'_>,
    references: &References<'_>,
    declared: &Implementation,
) -> Result<Option<Shape>, NoMemory>
    ensures { IfOk result (λ shape. shape ≡ implementation_shape references.now tables.now declared.now) }
{
    if !is_data(declared.category) {
        return Ok(None);
    }
    let deciding = deciding_with(declared, declared_type(tables, references, declared));
    shape_decided(
        alloc,
        tables,
        references,
        &deciding,
        declared.subcomponents.rows(),
    )
}

pub fn declared_type<'a>(
    tables: &'a Tables<'_>,
    references: &References<'_>,
    declared: &Implementation,
) -> Option<&'a ComponentType>
    ensures { option_copied result ≡ declared_type references.now tables.now declared.now }
{
    let place = references.type_of(tables, declared)?;
    match tables.types.rows().get(place) {
        Some(found) => Some(found.get()),
        None => None,
    }
}

/// What decides for an implementation: what stands at itself, else what stands at its type.
pub fn deciding_with<'a>(
    declared: &'a Implementation,
    declared_type: Option<&'a ComponentType>,
) -> Deciding<'a>
    ensures { result ≡ deciding_with declared.now (option_copied declared_type.entry) }
{
    let own = Deciding::among(declared.properties.rows());
    match declared_type {
        Some(found) => own.or(Deciding::among(found.properties.rows())),
        None => own,
    }
}

/// The shape by the first rule that fits.
fn shape_decided(
    alloc: Global,
    tables: &Tables<'_>,
    references: &References<'_>,
    deciding: &Deciding<'_>,
    subcomponents: &[Subcomponent],
) -> Result<Option<Shape>, NoMemory>
    ensures { IfOk result (λ shape. shape ≡ shape_decided references.now tables.now deciding.now subcomponents.now) }
{
    match &deciding.enumerators {
        Some(enumerators) => enum_shape(alloc, enumerators.get()),
        None => match &deciding.base_type {
            Some(base) => {
                let base = base_part(alloc, tables, references, base.get())?;
                Ok(based_shape(base, &deciding.dimension))
            }
            None => struct_shape(alloc, tables, references, subcomponents),
        },
    }
}

fn enum_shape(alloc: Global, association: &Association) -> Result<Option<Shape>, NoMemory>
    ensures { IfOk result (λ shape. shape ≡ enum_shape association.now) }
{
    let Some(value) = sole_value(association) else {
        return Ok(None);
    };
    match enumerators_of(alloc, value)? {
        Some(names) => Ok(Some(Shape::Enum(names))),
        None => Ok(None),
    }
}

fn based_shape(base: Option<Part>, dimension: &Option<Held<'_, Association>>) -> Option<Shape>
    ensures { result ≡ option_and_then (based_shape dimension.now) base }
{
    let base = base?;
    match dimension {
        Some(dimension) => array_shape(base, dimension.get()),
        None => Some(Shape::Alias(base)),
    }
}

fn array_shape(base: Part, dimension: &Association) -> Option<Shape>
    ensures { result ≡ array_shape base dimension.now }
{
    let times = dimension_of(sole_value(dimension)?)?;
    Some(Shape::Array(base, times))
}

fn struct_shape(
    alloc: Global,
    tables: &Tables<'_>,
    references: &References<'_>,
    subcomponents: &[Subcomponent],
) -> Result<Option<Shape>, NoMemory>
    ensures { IfOk result (λ shape. shape ≡ struct_shape references.now tables.now subcomponents.now) }
{
    if subcomponents.is_empty() {
        return Ok(None);
    }
    match parts_of(alloc, tables, references, subcomponents)? {
        Some(parts) => Ok(Some(Shape::Struct(parts))),
        None => Ok(None),
    }
}
