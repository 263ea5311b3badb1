//! Layouts from types.

ghost use Rattle.std.specs.Prelude.{◌≡◌, ◌↔◌, ◌<◌, ◌≤◌, length, IfOk, IfErr, IsErrOf};
ghost use Rattle.hw_types.specs.Count.{scalar_count, told_count};
ghost use Rattle.hw_types.specs.Extent.{IsExtentOf};
ghost use Rattle.hw_types.specs.Fault.{IfTooWide};
ghost use Rattle.hw_types.specs.Layout.{shape_of};

use crate::count::count_scalars;
use crate::extent::SCALAR_LIMIT;
use crate::{Extent, Layout, Members, Ty, TypeFault};
use hw_text::NoMemory;
use std::alloc::Global;

/// The layout of a type.
pub fn layout_of(alloc: Global, ty: &Ty) -> Result<Layout, TypeFault>
    ensures layout { IfOk result (λ layout. layout ≡ shape_of ty.now) }
    ensures few { IfOk result (λ layout. length layout.scalars ≤ 256) }
    ensures wide { IsErrOf result (TypeFault.TooWide (told_count ty.now)) ↔ (256 < scalar_count ty.now) }
    ensures count { IfErr result (IfTooWide (λ count. count ≡ told_count ty.now)) }
{
    let count = count_scalars(ty);
    if count > SCALAR_LIMIT {
        return Err(TypeFault::TooWide(count));
    }
    match extent_of(alloc, ty)? {
        Extent::Laid(layout) => Ok(layout),
        Extent::TooWide(width) => Err(TypeFault::TooWide(width.count)),
    }
}

/// What is known of a type by what is known of its parts.
fn extent_of(alloc: Global, ty: &Ty) -> Result<Extent, NoMemory>
    ensures { IfOk result (IsExtentOf ty.now) }
{
    match ty {
        Ty::One(scalar) => Ok(Extent::of_scalar(alloc, *scalar)?),
        Ty::Fields(fields) => {
            let mut members = Members::new(alloc);
            for field in fields.rows() {
                members = members.with(&extent_of(alloc, field)?)?;
            }
            Ok(members.into_extent())
        }
        Ty::Times(element, times) => Ok(extent_of(alloc, element.get())?.times(alloc, *times)?),
        Ty::Nothing => Ok(Extent::nothing(alloc)),
    }
}
