//! What is known of the types that rows stand for.

ghost use Rattle.std.specs.Prelude.{◌≡◌, option_copied, IfOk, IfSome, IfNone, Any};
ghost use Rattle.aadl_names.specs.Meanings.{at_row};
ghost use Rattle.aadl_types.specs.Extents.{extent_at};
ghost use Rattle.aadl_types.specs.Settling.{IsPartExtent, IsShapeExtent, IsStructExtent, IsRight, IsUnknownPart, IsStuckShape, nothing_known, unknown_of};

use crate::bases::scalar_of;
use crate::shape::{Part, Shape};
use crate::shapes::Shapes;
use aadl_names::ClassRow;
use hw_text::NoMemory;
use hw_types::{Extent, Members, Scalar};
use std::alloc::Global;
use std::marker::Model;

/// What is known of the type of each component type and each implementation.
#[derive(Drop)]
pub struct Extents {
    pub(crate) types: Vec<Option<Extent>>,
    pub(crate) implementations: Vec<Option<Extent>>,
}

impl Model for Extents {
    ghost use Rattle.aadl_types.specs.Extents.{Known};

    ghost Value = { Known };

    ghost view = { λ e. record { types = e.types.items; implementations = e.implementations.items } };
}

impl Extents {
    /// What is known of the type of a row.
    pub fn at(&self, class: ClassRow) -> Option<&Extent>
        ensures { option_copied result ≡ extent_at self.now class }
    {
        match class {
            ClassRow::Base => None,
            ClassRow::Type(number) => known_at(self.types.as_slice(), number),
            ClassRow::Implementation(number) => known_at(self.implementations.as_slice(), number),
        }
    }

    /// Nothing is known yet.
    pub(crate) fn nothing(alloc: Global, shapes: &Shapes) -> Result<Extents, NoMemory>
        ensures { IfOk result (λ extents. extents ≡ nothing_known shapes.now) }
    {
        Ok(Extents {
            types: unknown(alloc, shapes.types.rows())?,
            implementations: unknown(alloc, shapes.implementations.rows())?,
        })
    }

    /// What is known of a part, where that is known.
    fn part(&self, alloc: Global, shapes: &Shapes, part: Part) -> Result<Option<Extent>, NoMemory>
        requires { IsRight shapes.now self.now }
        ensures some { IfOk result (λ found. IfSome found (IsPartExtent shapes.now part)) }
        ensures none { IfOk result (λ found. IfNone found (IsUnknownPart self.now part)) }
    {
        match part {
            Part::Base(base) => Ok(Some(Extent::of_scalar(alloc, scalar_of(base))?)),
            Part::Row(class) => match self.at(class) {
                Some(found) => Ok(Some(copied(found)?)),
                None => Ok(None),
            },
        }
    }

    /// What is known of a struct of these members.
    fn members(
        &self,
        alloc: Global,
        shapes: &Shapes,
        parts: &[Part],
    ) -> Result<Option<Extent>, NoMemory>
        requires { IsRight shapes.now self.now }
        ensures some { IfOk result (λ found. IfSome found (IsStructExtent shapes.now parts.now)) }
        ensures none { IfOk result (λ found. IfNone found (Any (IsUnknownPart self.now) parts.now)) }
    {
        let mut members = Members::new(alloc);
        for &part in parts {
            match self.part(alloc, shapes, part)? {
                Some(member) => members = members.with(&member)?,
                None => return Ok(None),
            }
        }
        Ok(Some(members.into_extent()))
    }

    /// What is known of a type of this shape.
    pub(crate) fn of_shape(
        &self,
        alloc: Global,
        shapes: &Shapes,
        shape: &Shape,
    ) -> Result<Option<Extent>, NoMemory>
        requires { IsRight shapes.now self.now }
        ensures some { IfOk result (λ found. IfSome found (IsShapeExtent shapes.now shape.now)) }
        ensures none { IfOk result (λ found. IfNone found (IsStuckShape self.now shape.now)) }
    {
        match shape {
            Shape::Enum(names) => {
                let count = names.rows().len();
                if count < 1 << 32 {
                    Ok(Some(Extent::of_scalar(alloc, Scalar::Choice(count as u32))?))
                } else {
                    Ok(None)
                }
            }
            Shape::Array(element, times) => match self.part(alloc, shapes, *element)? {
                Some(element) => Ok(Some(element.times(alloc, *times)?)),
                None => Ok(None),
            },
            Shape::Alias(base) => self.part(alloc, shapes, *base),
            Shape::Struct(members) => self.members(alloc, shapes, members.rows()),
        }
    }
}

fn known_at(rows: &[Option<Extent>], number: usize) -> Option<&Extent>
    ensures { option_copied result ≡ at_row rows.now number }
{
    match rows.get(number) {
        Some(Some(found)) => Some(found),
        _ => None,
    }
}

fn unknown(alloc: Global, shapes: &[Option<Shape>]) -> Result<Vec<Option<Extent>>, NoMemory>
    ensures { IfOk result (λ known. known.items ≡ unknown_of shapes.now) }
{
    let mut known = Vec::new(alloc);
    for _shape in shapes {
        known.push(None)?;
    }
    Ok(known)
}

/// An equal extent.
fn copied(extent: &Extent) -> Result<Extent, NoMemory>
    ensures { IfOk result (λ copy. copy ≡ extent.now) }
{
    match extent {
        Extent::Laid(layout) => Ok(Extent::Laid(layout.copy()?)),
        Extent::TooWide(width) => Ok(Extent::TooWide(*width)),
    }
}
