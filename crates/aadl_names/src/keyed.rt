//! Under which names the rows of tables are found.

ghost use Rattle.std.specs.Prelude.{◌≡◌, []};
ghost use Rattle.hw_text.specs.declared.place.Place.{Place as PlaceValue};
ghost use Rattle.aadl_tree.specs.declared.component.ComponentType.{ComponentType as TypeValue};
ghost use Rattle.aadl_tree.specs.declared.component.Implementation.{Implementation as ImplementationValue};
ghost use Rattle.aadl_names.specs.declared.parts.PartRow.{PartRow as PartRowValue};
ghost use Rattle.aadl_names.specs.Keys.{Key, key, type_key, implementation_key};

use crate::held::Held;
use crate::part::Part;
use crate::parts::PartRow;
use aadl_tree::{ComponentType, Implementation};
use hw_text::Place;

/// A row that has a name.
pub trait Keyed {
    /// Rows of one key have one name.
    ghost key_of: { Self → Key };

    /// Where the name stands.
    ghost place_of: { Self → PlaceValue };

    fn key(&self) -> (usize, &[u8], &[u8])
        ensures { key result.0 result.1.now result.2.now ≡ key_of self.now };

    fn place(&self) -> Place
        ensures { result ≡ place_of self.now };
}

impl<'a> Keyed for Held<'a, ComponentType> {
    ghost key_of = { type_key };

    ghost place_of = { λ (t : TypeValue). t.name.place };

    fn key(&self) -> (usize, &[u8], &[u8]) {
        (0, self.get().name.name.rows(), &[])
    }

    fn place(&self) -> Place {
        self.get().name.place
    }
}

impl<'a> Keyed for Held<'a, Implementation> {
    ghost key_of = { implementation_key };

    ghost place_of = { λ (i : ImplementationValue). i.name.component_type.place };

    fn key(&self) -> (usize, &[u8], &[u8]) {
        let name = &self.get().name;
        (0, name.component_type.name.rows(), name.name.rows())
    }

    fn place(&self) -> Place {
        self.get().name.component_type.place
    }
}

impl<'a, T: Part> Keyed for PartRow<'a, T> {
    ghost key_of = { λ (row : PartRowValue T). key row.owner (T.name_of row.part).name [] };

    ghost place_of = { λ (row : PartRowValue T). (T.name_of row.part).place };

    fn key(&self) -> (usize, &[u8], &[u8]) {
        (self.owner, self.part.get().name().name.rows(), &[])
    }

    fn place(&self) -> Place {
        self.part.get().name().place
    }
}
