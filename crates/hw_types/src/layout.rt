//! Layouts: where the scalars of a type lie.

ghost use Rattle.std.specs.Prelude.{◌≡◌, ◌↔◌, ◌<◌, ◌+◌, ◌*◌, ◌^◌, ◌++◌, IsTrue, IfOk, OnOk, All};
ghost use Rattle.hw_types.specs.Layout.{shifted, scalar_shape, empty_shape, array_of};
ghost use Rattle.hw_types.specs.Shape.{IsLaidOut, IsAlign};
ghost use Rattle.hw_types.specs.Value.{IsValueOf};

use crate::{Copied, FieldCell, FieldCellList, Scalar};
use hw_text::NoMemory;
use std::alloc::Global;
use std::marker::Model;

/// Where the scalars of a type lie, and what room its values take.
#[derive(Debug, Drop)]
pub struct Layout {
    scalars: FieldCellList,
    size: u32,
    align: u32,
}

impl Model for Layout {
    ghost use Rattle.hw_types.specs.Shape.{Shape, IsLaidOut};

    ghost Value = { Shape };

    ghost view = { λ l. record { scalars = l.scalars; size = l.size; align = l.align } };

    ghost invariant = { λ l. IsLaidOut (record { scalars = l.scalars; size = l.size; align = l.align }) };
}

impl Layout {
    /// The scalars with their offsets, in order.
    pub fn scalars(&self) -> &[FieldCell]
        ensures cells { result.now ≡ self.now.scalars }
        ensures laid_out { IsLaidOut self.now }
    {
        self.scalars.rows()
    }

    /// The number of bytes of a value.
    pub fn size(&self) -> u32
        ensures size { result ≡ self.now.size }
        ensures laid_out { IsLaidOut self.now }
    {
        self.size
    }

    /// The number of which each value's place is a multiple.
    pub fn align(&self) -> u32
        ensures align { result ≡ self.now.align }
        ensures laid_out { IsLaidOut self.now }
    {
        self.align
    }

    /// Whether the numbers are a value.
    pub fn holds(&self, numbers: &[i128]) -> bool
        ensures { IsTrue result ↔ IsValueOf self.now numbers.now }
    {
        let cells = self.scalars();
        if cells.len() != numbers.len() {
            return false;
        }
        for (place, cell) in cells.iter().enumerate() {
            if !cell.scalar.holds(numbers[place]) {
                return false;
            }
        }
        true
    }

    /// An equal layout.
    pub fn copy(&self) -> Result<Layout, NoMemory>
        ensures { IfOk result (λ copy. copy ≡ self.now) }
    {
        Ok(Layout {
            scalars: self.scalars.copy()?,
            size: self.size,
            align: self.align,
        })
    }

    pub(crate) fn new(scalars: FieldCellList, size: u32, align: u32) -> Layout
        requires { IsLaidOut (record { scalars = scalars; size = size; align = align }) }
        ensures { result ≡ record { scalars = scalars; size = size; align = align } }
    {
        Layout {
            scalars,
            size,
            align,
        }
    }

    /// The layout of what has no scalars.
    pub(crate) fn empty(alloc: Global, align: u32) -> Layout
        requires { IsAlign align }
        ensures { result ≡ empty_shape align }
    {
        Layout {
            scalars: FieldCellList::new(alloc),
            size: 0,
            align,
        }
    }

    /// The layout of the type without a value.
    pub fn nothing(alloc: Global) -> Layout
        ensures { result ≡ empty_shape 1 }
    {
        Layout::empty(alloc, 1)
    }

    /// The layout of a scalar.
    pub fn of_scalar(alloc: Global, scalar: Scalar) -> Result<Layout, NoMemory>
        ensures { IfOk result (λ layout. layout ≡ scalar_shape scalar) }
    {
        let mut scalars = FieldCellList::new(alloc);
        scalars.push(FieldCell { offset: 0, scalar })?;
        Ok(Layout {
            scalars,
            size: scalar.width(),
            align: scalar.width(),
        })
    }

    /// The layout of an array of so many elements of this one.
    pub(crate) fn repeated(&self, alloc: Global, times: u32) -> Result<Layout, NoMemory>
        requires { times * self.now.size < 2 ^ 32 }
        ensures { IfOk result (λ layout. layout ≡ array_of self.now times) }
    {
        if self.size() == 0 {
            return Ok(self.copy()?);
        }
        let mut scalars = FieldCellList::new(alloc);
        for index in 0..times {
            append_shifted(&mut scalars, index * self.size(), self.scalars())?;
        }
        Ok(Layout::new(scalars, times * self.size(), self.align()))
    }
}

/// Appends the scalars of what begins at a place.
pub(crate) fn append_shifted(
    list: &mut FieldCellList,
    place: u32,
    cells: &[FieldCell],
) -> Result<(), NoMemory>
    requires { All (λ cell. place + cell.offset < 2 ^ 32) cells.now }
    ensures { OnOk result (list.new ≡ list.old ++ shifted place cells.now) }
{
    for cell in cells {
        list.push(FieldCell {
            offset: place + cell.offset,
            scalar: cell.scalar,
        })?;
    }
    Ok(())
}
