//! Where refusals may stand, by the implementations that hold what is refused.

ghost use Rattle.std.specs.Prelude.{◌≡◌, ℕ, None, length, IfOk};
ghost use Rattle.aadl_timing.specs.Bounds.{is_past, bound_of, sooner, lowered};

use hw_text::{NoMemory, Place, Refusal};
use std::alloc::Global;
use std::marker::Model;

/// For each implementation, a place before which nothing inside of it is refused; nothing is, where
/// no place is told.
#[derive(Drop)]
pub struct Bounds {
    places: Vec<Option<Place>>,
}

impl Model for Bounds {
    ghost use Rattle.std.specs.Prelude.{List, Option};
    ghost use Rattle.hw_text.specs.declared.place.Place.{Place};

    ghost Value = { List (Option Place) };

    ghost view = { λ b. b.places.items };
}

impl Bounds {
    pub fn none(alloc: Global, implementations: usize) -> Result<Self, NoMemory>
        ensures long { IfOk result (λ bounds. length bounds ≡ implementations) }
        ensures none { IfOk result (λ bounds. (n : ℕ) → bound_of bounds n ≡ None) }
    {
        Ok(Bounds {
            places: Vec::from_elem(alloc, None, implementations)?,
        })
    }

    pub fn of(&self, implementation: usize) -> Option<Place>
        ensures { result ≡ bound_of self.now implementation }
    {
        match self.places.get(implementation) {
            Some(&place) => place,
            None => None,
        }
    }

    /// Something inside of an implementation may be refused at this place.
    pub fn add(&mut self, implementation: usize, place: Option<Place>)
        ensures { self.new ≡ lowered self.old implementation place }
    {
        if implementation < self.places.len() {
            self.places[implementation] = sooner(self.places[implementation], place);
        }
    }
}

#[tactic(auto, using(crate::proofs::PlacesOrder::is_before_told))]
fn sooner(one: Option<Place>, two: Option<Place>) -> Option<Place>
    ensures { result ≡ sooner one two }
{
    match (one, two) {
        (Some(one), Some(two)) => {
            let comes_first = two.is_before(one);
            Some(if comes_first { two } else { one })
        }
        (Some(one), None) => Some(one),
        (None, two) => two,
    }
}

/// Whether nothing at this place or behind it would be told in place of the known refusal.
#[tactic(auto, using(crate::proofs::PlacesOrder::is_before_told))]
pub fn is_past(known: &Option<Refusal>, bound: Option<Place>) -> bool
    ensures { result ≡ is_past known.now bound }
{
    match (known, bound) {
        (_, None) => true,
        (None, Some(_)) => false,
        (Some(refusal), Some(bound)) => {
            let comes_first = bound.is_before(refusal.place);
            !comes_first
        }
    }
}
