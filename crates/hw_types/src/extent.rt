//! What is known of a type's layout.

ghost use Rattle.std.specs.Prelude.{◌≡◌, IfOk};
ghost use Rattle.hw_types.specs.declared.ty.Ty.{Ty as AnyType};
ghost use Rattle.hw_types.specs.declared.ty.Ty.TheVariants.{One as one, Times as array, Nothing as nothing};
ghost use Rattle.hw_types.specs.Extent.{IsExtentOf, count_in, align_in};

use crate::{Layout, Scalar};
use hw_text::NoMemory;
use std::alloc::Global;

/// The most scalars that a type with a layout has.
pub const SCALAR_LIMIT: u64 = 256;

/// How many scalars a type has that has too many, and its alignment.
#[derive(Clone, Copy, Debug, PartialEq, Eq)]
pub struct Width {
    /// The greatest number where there are more.
    pub count: u64,
    pub align: u32,
}

/// What is known of a type: enough to lay out a type of which it is a part.
#[derive(Debug, Drop)]
pub enum Extent {
    Laid(Layout),
    /// There are more than 256 scalars.
    TooWide(Width),
}

impl Extent {
    /// What is known of a scalar.
    pub fn of_scalar(alloc: Global, scalar: Scalar) -> Result<Extent, NoMemory>
        ensures { IfOk result (IsExtentOf (one scalar)) }
    {
        Ok(Extent::Laid(Layout::of_scalar(alloc, scalar)?))
    }

    /// What is known of the type that has no value.
    pub fn nothing(alloc: Global) -> Extent
        ensures { IsExtentOf nothing result }
    {
        Extent::Laid(Layout::nothing(alloc))
    }

    /// What is known of an array of so many elements, this being known of one.
    pub fn times(&self, alloc: Global, times: u32) -> Result<Extent, NoMemory>
        requires { (element : AnyType) × IsExtentOf element self.now }
        ensures { IfOk result (λ extent. (element : AnyType) → IsExtentOf element self.now → IsExtentOf (array element times) extent) }
    {
        let count = u64::from(times).saturating_mul(self.count());
        if count > SCALAR_LIMIT {
            let align = self.align();
            return Ok(Extent::TooWide(Width { count, align }));
        }
        match self {
            Extent::Laid(element) => Ok(Extent::Laid(element.repeated(alloc, times)?)),
            Extent::TooWide(width) => Ok(Extent::Laid(Layout::empty(alloc, width.align))),
        }
    }

    /// The number of scalars, or the greatest number where there are more.
    pub fn count(&self) -> u64
        ensures { result ≡ count_in self.now }
    {
        match self {
            Extent::Laid(layout) => layout.scalars().len() as u64,
            Extent::TooWide(width) => width.count,
        }
    }

    pub fn align(&self) -> u32
        ensures { result ≡ align_in self.now }
    {
        match self {
            Extent::Laid(layout) => layout.align(),
            Extent::TooWide(width) => width.align,
        }
    }
}
