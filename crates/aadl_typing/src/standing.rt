//! Where the types and implementations of a model stand among its declarations.

ghost use Rattle.std.specs.Prelude.{◌≡◌, IfOk};
ghost use Rattle.aadl_typing.specs.Containing.{standing_of, place_in, places_in};

use aadl_names::ClassRow;
use aadl_tree::Declaration;
use hw_text::{NoMemory, Rows};
use std::alloc::Global;

/// The place of each type and of each implementation among all declarations.
#[derive(Drop)]
pub struct Standing {
    pub types: Rows<usize>,
    pub implementations: Rows<usize>,
}

impl Standing {
    pub fn of(alloc: Global, declarations: &[Declaration]) -> Result<Standing, NoMemory>
        ensures { IfOk result (λ standing. standing ≡ standing_of declarations.now) }
    {
        let mut types = Rows::new(alloc);
        let mut implementations = Rows::new(alloc);
        for (place, declaration) in declarations.iter().enumerate() {
            match declaration {
                Declaration::Type(_) => types.push(place)?,
                Declaration::Implementation(_) => implementations.push(place)?,
                Declaration::Annex(_) => {}
            }
        }
        Ok(Standing {
            types,
            implementations,
        })
    }

    /// The places of what these rows stand for.
    pub fn places(&self, alloc: Global, classes: &[ClassRow]) -> Result<Rows<usize>, NoMemory>
        ensures { IfOk result (λ places. places ≡ places_in self.now classes.now) }
    {
        let mut places = Rows::new(alloc);
        for &class in classes {
            if let Some(place) = self.place(class) {
                places.push(place)?;
            }
        }
        Ok(places)
    }

    fn place(&self, class: ClassRow) -> Option<usize>
        ensures { result ≡ place_in self.now class }
    {
        match class {
            ClassRow::Base => None,
            ClassRow::Type(number) => self.types.rows().get(number).copied(),
            ClassRow::Implementation(number) => self.implementations.rows().get(number).copied(),
        }
    }
}
