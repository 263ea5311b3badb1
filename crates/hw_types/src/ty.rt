//! Types of values.

ghost use Rattle.std.specs.Prelude.{◌≡◌, IfOk};

use crate::Scalar;
use hw_text::{Boxed, NoMemory, Rows};

/// A type of a model.
#[derive(Debug, Drop)]
pub enum Ty {
    One(Scalar),
    /// A struct of these fields, in order.
    Fields(TyList),
    /// An array of so many elements.
    Times(Boxed<Ty>, u32),
    /// What has no value, as an event without data.
    Nothing,
}

/// The types of a struct's fields, in order.
pub type TyList = Rows<Ty>;

impl Ty {
    /// An equal type.
    pub fn copy(&self) -> Result<Ty, NoMemory>
        ensures { IfOk result (λ copy. copy ≡ self.now) }
    {
        match self {
            Ty::One(scalar) => Ok(Ty::One(*scalar)),
            Ty::Fields(fields) => {
                let mut copies = TyList::new(fields.allocator());
                for field in fields.rows() {
                    copies.push(field.copy()?)?;
                }
                Ok(Ty::Fields(copies))
            }
            Ty::Times(element, times) => {
                let copy = element.get().copy()?;
                Ok(Ty::Times(Boxed::new(element.allocator(), copy)?, *times))
            }
            Ty::Nothing => Ok(Ty::Nothing),
        }
    }
}
