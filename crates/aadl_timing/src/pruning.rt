//! Which parts of an instance may hold a thread that is refused.

ghost use Rattle.std.specs.Prelude.{◌≡◌, ℕ, List, length, true, IfOk};
ghost use Rattle.aadl_names.specs.Offences.{earliest_from};
ghost use Rattle.aadl_names.specs.declared.resolved.Resolved.{Resolved as ResolvedValue};
ghost use Rattle.aadl_names.specs.declared.tables.Tables.{Tables as TablesValue};
ghost use Rattle.aadl_domains.specs.Components.{at_subcomponent, inside_implementation, components_within, led_to};
ghost use Rattle.aadl_domains.specs.declared.sought.Sought.TheVariants as sought;
ghost use Rattle.aadl_timing.specs.Bounds.{IsBoundOf, IsPlaceOf, AreBounds, AreDeepBounds, leads_anywhere};
ghost use Rattle.aadl_timing.specs.Untimed.{untimed_behind};

use crate::bounds::{Bounds, is_past};
use crate::instance::{Instance, implementation_in};
use crate::leading::leads_anywhere;
use crate::timing::timing_of;
use crate::untimed::is_untimed;
use aadl_domains::Sought;
use aadl_names::at_row;
use aadl_tree::Category;
use hw_text::{NoMemory, Place, Refusal, Rows};
use std::alloc::Global;

/// How many levels of an instance are looked at: a path leads through 32 systems at most.
pub const LEVELS: usize = 33;

impl<'a> Instance<'a> {
    /// Where the threads inside of each implementation may be refused, by depth.
    pub fn deep_bounds(&self, alloc: Global) -> Result<Rows<Bounds>, NoMemory>
        ensures { IfOk result (λ rounds. AreDeepBounds self.now.tables.now self.now.resolved.now rounds) }
    {
        let is_led = leads_anywhere(self.tables);
        let mut rounds = Rows::new(alloc);
        rounds.push(Bounds::none(alloc, self.tables.implementations.len())?)?;
        for depth in 0..LEVELS {
            let next = self.deeper(alloc, is_led, &rounds.rows()[depth])?;
            rounds.push(next)?;
        }
        Ok(rounds)
    }

    /// The same one level deeper.
    fn deeper(&self, alloc: Global, is_led: bool, below: &Bounds) -> Result<Bounds, NoMemory>
        requires { is_led ≡ leads_anywhere self.now.tables.now }
        ensures { IfOk result (λ bounds. (inside : ℕ → List (List ℕ)) → AreBounds self.now.tables.now self.now.resolved.now below.now inside → AreBounds self.now.tables.now self.now.resolved.now bounds (inside_implementation sought.Domain inside self.now.tables.now self.now.resolved.now)) }
    {
        let mut bounds = Bounds::none(alloc, self.tables.implementations.len())?;
        for (at, row) in self.tables.subcomponents.rows().iter().enumerate() {
            let category = row.part.get().category;
            let bound = self.bound_at(alloc, is_led, below, at, category)?;
            bounds.add(row.owner, bound);
        }
        Ok(bounds)
    }

    /// Where a thread at or below a subcomponent may be refused.
    #[tactic(auto, using(crate::proofs::Bounded::bound_domain, crate::proofs::Bounded::bound_below))]
    fn bound_at(
        &self,
        alloc: Global,
        is_led: bool,
        below: &Bounds,
        row: usize,
        category: Category,
    ) -> Result<Option<Place>, NoMemory>
        requires { is_led ≡ leads_anywhere self.now.tables.now }
        ensures { IfOk result (λ bound. (inside : ℕ → List (List ℕ)) → AreBounds self.now.tables.now self.now.resolved.now below.now inside → IsBoundOf self.now.tables.now self.now.resolved.now bound (at_subcomponent sought.Domain inside self.now.resolved.now row category)) }
    {
        if Sought::Domain.is(category) {
            let place = self.thread_place(alloc, is_led, row)?;
            return Ok(place);
        }
        match self.led_to(row, category) {
            Some(inner) => Ok(below.of(inner)),
            None => Ok(None),
        }
    }

    /// Where the thread of a domain is refused, if it is.
    #[tactic(auto, using(crate::proofs::Alone::no_thread, crate::proofs::Alone::no_component, crate::proofs::Alone::at_type, crate::proofs::Alone::well_timed))]
    fn thread_place(
        &self,
        alloc: Global,
        is_led: bool,
        row: usize,
    ) -> Result<Option<Place>, NoMemory>
        requires { is_led ≡ leads_anywhere self.now.tables.now }
        ensures { IfOk result (λ place. IsPlaceOf self.now.tables.now self.now.resolved.now place row) }
    {
        let Some(thread) = self.thread_row(row) else {
            return Ok(None);
        };
        let Some(alone) = self.component_in(thread, Rows::new(alloc)) else {
            return Ok(None);
        };
        let timing = timing_of(alloc, &alone)?;
        if is_led || is_untimed(timing) {
            return Ok(Some(alone.declared.get().name.place));
        }
        Ok(None)
    }

    /// The implementation of a subcomponent that is a system.
    pub fn led_to(&self, row: usize, category: Category) -> Option<usize>
        ensures { result ≡ led_to self.now.resolved.now row category }
    {
        if category != Category::System {
            return None;
        }
        implementation_in(at_row(self.resolved.classes.rows(), row)?)
    }
}

/// Whether no thread inside of an implementation would be told in place of the known refusal.
pub fn is_settled(
    rounds: &[Bounds],
    depth: usize,
    implementation: usize,
    known: &Option<Refusal>,
) -> bool
    ensures { result ≡ true → (t : TablesValue) (to : ResolvedValue) (before : List ℕ) → AreDeepBounds t to rounds.now → earliest_from known.now (untimed_behind t to before (components_within sought.Domain t to depth implementation)) ≡ known.now }
{
    depth < rounds.len() && is_past(known, rounds[depth].of(implementation))
}
