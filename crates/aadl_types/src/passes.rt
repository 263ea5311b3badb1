//! Finding what is known of all types, row by row.

ghost use Rattle.std.specs.Prelude.{◌≡◌, ◌<◌, ◌||◌, ℕ, length, true, false, None, option_copied, IfOk, OnOk};
ghost use Rattle.aadl_names.specs.declared.class_row.ClassRow.TheVariants as row;
ghost use Rattle.aadl_types.specs.Extents.{extent_at, AreAnswers};
ghost use Rattle.aadl_types.specs.Settling.{IsRight, IsDone, AreDone, unknown_count, with_known};
ghost use Rattle.aadl_types.specs.Types.{shape_at};

use crate::extents::Extents;
use crate::order::likely_order;
use crate::shape::Shape;
use crate::shapes::Shapes;
use aadl_names::ClassRow;
use hw_text::NoMemory;
use hw_types::Extent;
use std::alloc::Global;

impl Extents {
    /// Finds what is not known of a row yet; whether it could be found.
    fn settle(&mut self, alloc: Global, shapes: &Shapes, class: ClassRow) -> Result<bool, NoMemory>
        requires { IsRight shapes.now self.old }
        ensures right { OnOk result (IsRight shapes.now self.new) }
        ensures same { IfOk result (λ found. found ≡ false → self.new ≡ self.old) }
        ensures done { IfOk result (λ found. found ≡ false → IsDone shapes.now self.old class) }
        ensures fewer { IfOk result (λ found. found ≡ true → unknown_count self.new < unknown_count self.old) }
    {
        if self.at(class).is_some() {
            return Ok(false);
        }
        match shape_at(shapes, class) {
            None => Ok(false),
            Some(shape) => match self.of_shape(alloc, shapes, shape)? {
                None => Ok(false),
                Some(extent) => {
                    self.know(class, extent);
                    Ok(true)
                }
            },
        }
    }

    /// What is known of the types that all rows stand for.
    #[tactic(auto, using(crate::proofs::Complete::right_nothing))]
    pub fn of(alloc: Global, shapes: &Shapes) -> Result<Extents, NoMemory>
        ensures { IfOk result (AreAnswers shapes.now) }
    {
        let mut extents = Extents::nothing(alloc, shapes)?;
        extents.settle_each(alloc, shapes, likely_order(alloc, shapes)?.as_slice())?;
        let mut open = true;
        while open {
            open = extents.pass(alloc, shapes)?;
        }
        Ok(extents)
    }

    /// Settles these rows in this order.
    fn settle_each(
        &mut self,
        alloc: Global,
        shapes: &Shapes,
        rows: &[ClassRow],
    ) -> Result<(), NoMemory>
        requires { IsRight shapes.now self.old }
        ensures { OnOk result (IsRight shapes.now self.new) }
    {
        for &class in rows {
            self.settle(alloc, shapes, class)?;
        }
        Ok(())
    }

    /// One pass over all rows; whether anything was found.
    #[tactic(auto, using(crate::proofs::Complete::all_done))]
    fn pass(&mut self, alloc: Global, shapes: &Shapes) -> Result<bool, NoMemory>
        requires { IsRight shapes.now self.old }
        ensures right { OnOk result (IsRight shapes.now self.new) }
        ensures done { IfOk result (λ found. found ≡ false → AreDone shapes.now self.new) }
        ensures fewer { IfOk result (λ found. found ≡ true → unknown_count self.new < unknown_count self.old) }
        ensures same { IfOk result (λ found. found ≡ false → self.new ≡ self.old) }
    {
        let types = self.pass_types(alloc, shapes)?;
        let implementations = self.pass_implementations(alloc, shapes)?;
        Ok(either(types, implementations))
    }

    /// One pass over the types; whether anything was found.
    fn pass_types(&mut self, alloc: Global, shapes: &Shapes) -> Result<bool, NoMemory>
        requires { IsRight shapes.now self.old }
        ensures right { OnOk result (IsRight shapes.now self.new) }
        ensures same { IfOk result (λ found. found ≡ false → self.new ≡ self.old) }
        ensures done { IfOk result (λ found. found ≡ false → (n : ℕ) → n < length shapes.now.types → IsDone shapes.now self.old (row.Type n)) }
        ensures fewer { IfOk result (λ found. found ≡ true → unknown_count self.new < unknown_count self.old) }
    {
        let mut found = false;
        for number in 0..shapes.types.len() {
            let one = self.settle(alloc, shapes, ClassRow::Type(number))?;
            found = either(found, one);
        }
        Ok(found)
    }

    /// One pass over the implementations; whether anything was found.
    fn pass_implementations(&mut self, alloc: Global, shapes: &Shapes) -> Result<bool, NoMemory>
        requires { IsRight shapes.now self.old }
        ensures right { OnOk result (IsRight shapes.now self.new) }
        ensures same { IfOk result (λ found. found ≡ false → self.new ≡ self.old) }
        ensures done { IfOk result (λ found. found ≡ false → (n : ℕ) → n < length shapes.now.implementations → IsDone shapes.now self.old (row.Implementation n)) }
        ensures fewer { IfOk result (λ found. found ≡ true → unknown_count self.new < unknown_count self.old) }
    {
        let mut found = false;
        for number in 0..shapes.implementations.len() {
            let one = self.settle(alloc, shapes, ClassRow::Implementation(number))?;
            found = either(found, one);
        }
        Ok(found)
    }

    fn know(&mut self, class: ClassRow, extent: Extent)
        ensures { self.new ≡ with_known self.old class extent }
    {
        match class {
            ClassRow::Base => {}
            ClassRow::Type(number) => {
                if number < self.types.len() {
                    self.types[number] = Some(extent);
                }
            }
            ClassRow::Implementation(number) => {
                if number < self.implementations.len() {
                    self.implementations[number] = Some(extent);
                }
            }
        }
    }
}

fn either(one: bool, other: bool) -> bool
    ensures { result ≡ (one || other) }
{
    one || other
}

/// The shape of a row.
pub fn shape_at(shapes: &Shapes, class: ClassRow) -> Option<&Shape>
    ensures { option_copied result ≡ shape_at shapes.now class }
{
    let (rows, number) = match class {
        ClassRow::Base => return None,
        ClassRow::Type(number) => (shapes.types.rows(), number),
        ClassRow::Implementation(number) => (shapes.implementations.rows(), number),
    };
    match rows.get(number) {
        Some(Some(found)) => Some(found),
        _ => None,
    }
}
