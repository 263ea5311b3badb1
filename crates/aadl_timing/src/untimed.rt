//! Threads that do not say when they are dispatched.

ghost use Rattle.std.specs.Prelude.{◌≡◌, None, IfOk};
ghost use Rattle.aadl_names.specs.Offences.{earliest_from};
ghost use Rattle.aadl_domains.specs.Components.{at_subcomponent, components_within, domains_of};
ghost use Rattle.aadl_domains.specs.declared.sought.Sought.TheVariants as sought;
ghost use Rattle.aadl_timing.specs.Bounds.{AreDeepBounds};
ghost use Rattle.aadl_timing.specs.Untimed.{is_untimed, untimed, untimed_at, untimed_behind, untimed_offences};

use crate::bounds::Bounds;
use crate::instance::Instance;
use crate::pruning::{LEVELS, is_settled};
use crate::threads::extended;
use crate::timing::{Timing, timing_of};
use aadl_domains::Sought;
use aadl_names::{Component, earlier, named};
use aadl_tree::Category;
use aadl_values::Dispatch;
use hw_text::{Code, NoMemory, Refusal, TextBuf};
use std::alloc::Global;

impl<'a> Instance<'a> {
    /// The first refusal of a thread of the instance that has no dispatch protocol, or is periodic and
    /// has no period.
    pub fn first_untimed(&self, alloc: Global, root: usize) -> Result<Option<Refusal>, NoMemory>
        ensures { IfOk result (λ first. first ≡ earliest_from None (untimed_offences self.now.tables.now self.now.resolved.now (domains_of self.now.tables.now self.now.resolved.now root))) }
    {
        let rounds = self.deep_bounds(alloc)?;
        let first = self.first_within(alloc, rounds.rows(), LEVELS, root, &[], None)?;
        Ok(first)
    }

    /// The first refusal of a thread inside of an implementation, to which this path leads, so many
    /// levels deep.
    #[cycle(walk)]
    fn first_within(
        &self,
        alloc: Global,
        rounds: &[Bounds],
        depth: usize,
        implementation: usize,
        before: &[usize],
        known: Option<Refusal>,
    ) -> Result<Option<Refusal>, NoMemory>
        requires { AreDeepBounds self.now.tables.now self.now.resolved.now rounds.now }
        ensures { IfOk result (λ first. first ≡ earliest_from known (untimed_behind self.now.tables.now self.now.resolved.now before.now (components_within sought.Domain self.now.tables.now self.now.resolved.now depth implementation))) }
    {
        if depth == 0 || implementation >= self.tables.implementations.len() {
            return Ok(known);
        }
        if is_settled(rounds, depth, implementation, &known) {
            return Ok(known);
        }
        let mut first = known;
        for (at, row) in self.tables.subcomponents.rows().iter().enumerate() {
            if row.owner == implementation {
                let category = row.part.get().category;
                first = self.first_below(alloc, rounds, depth - 1, before, at, category, first)?;
            }
        }
        Ok(first)
    }

    /// The first refusal of a thread at or below a subcomponent.
    #[cycle(walk)]
    fn first_below(
        &self,
        alloc: Global,
        rounds: &[Bounds],
        depth: usize,
        before: &[usize],
        row: usize,
        category: Category,
        known: Option<Refusal>,
    ) -> Result<Option<Refusal>, NoMemory>
        requires { AreDeepBounds self.now.tables.now self.now.resolved.now rounds.now }
        ensures { IfOk result (λ first. first ≡ earliest_from known (untimed_behind self.now.tables.now self.now.resolved.now before.now (at_subcomponent sought.Domain (components_within sought.Domain self.now.tables.now self.now.resolved.now depth) self.now.resolved.now row category))) }
    {
        let path = extended(alloc, before, row)?;
        if Sought::Domain.is(category) {
            let offence = self.untimed_at(alloc, path.as_slice())?;
            return Ok(earlier(known, offence));
        }
        match self.led_to(row, category) {
            Some(inner) => {
                let first = self.first_within(alloc, rounds, depth, inner, path.as_slice(), known)?;
                Ok(first)
            }
            None => Ok(known),
        }
    }

    /// The refusal of the thread of a domain.
    fn untimed_at(&self, alloc: Global, path: &[usize]) -> Result<Option<Refusal>, NoMemory>
        ensures { IfOk result (λ offence. offence ≡ untimed_at self.now.tables.now self.now.resolved.now path.now) }
    {
        match self.thread_at(alloc, path)? {
            Some(thread) => untimed(alloc, &thread),
            None => Ok(None),
        }
    }
}

fn untimed(alloc: Global, thread: &Component<'_>) -> Result<Option<Refusal>, NoMemory>
    ensures { IfOk result (λ offence. offence ≡ untimed thread.now) }
{
    let timing = timing_of(alloc, thread)?;
    if !is_untimed(timing) {
        return Ok(None);
    }
    let name = &thread.declared.get().name;
    let mut word = TextBuf::new(alloc);
    word.word(name.name.rows())?;
    Ok(Some(named(Code::ModelNoPeriod, name.place, word)))
}

pub fn is_untimed(timing: Timing) -> bool
    ensures { result ≡ is_untimed timing }
{
    match timing.dispatch {
        None => true,
        Some(Dispatch::Periodic) => timing.period.is_none(),
        Some(Dispatch::Sporadic) => false,
    }
}
