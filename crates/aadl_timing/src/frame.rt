//! The frame period of an instance.

ghost use Rattle.std.specs.Prelude.{◌≡◌, None, filter_map, IfOk};
ghost use Rattle.aadl_domains.specs.Components.{components_of, domains_of};
ghost use Rattle.aadl_domains.specs.declared.sought.Sought.TheVariants as sought;
ghost use Rattle.aadl_timing.specs.Frames.{if_periodic, period_at, lesser, least_period, own_frame_period, frame_period};

use crate::instance::Instance;
use crate::timing::{counting_value, period_in, timing_of};
use aadl_domains::{Path, Sought, listed};
use aadl_values::{Dispatch, Property};
use hw_text::NoMemory;
use std::alloc::Global;

/// The frame period of an instance that says nothing of it, in picoseconds.
const MILLISECOND: u64 = 1_000_000_000;

impl<'a> Instance<'a> {
    /// The frame period in picoseconds: that of the processor, else the least period of a periodic
    /// thread of the first 60 domains, else a millisecond.
    pub fn frame_period(&self, alloc: Global, root: usize) -> Result<u64, NoMemory>
        ensures { IfOk result (λ period. period ≡ frame_period self.now.tables.now self.now.resolved.now root) }
    {
        if let Some(own) = self.own_frame_period(alloc, root)? {
            return Ok(own);
        }
        let found = listed(alloc, self.tables, self.resolved, Sought::Domain, root, 60)?;
        match self.least_period(alloc, found.first.rows())? {
            Some(least) => Ok(least),
            None => Ok(MILLISECOND),
        }
    }

    /// Frame_Period of the processor.
    fn own_frame_period(&self, alloc: Global, root: usize) -> Result<Option<u64>, NoMemory>
        ensures { IfOk result (λ period. period ≡ own_frame_period self.now.tables.now self.now.resolved.now (components_of sought.Processor self.now.tables.now self.now.resolved.now root)) }
    {
        let found = listed(
            alloc,
            self.tables,
            self.resolved,
            Sought::Processor,
            root,
            1,
        )?;
        let Some(path) = found.first.rows().first() else {
            return Ok(None);
        };
        let Some(processor) = self.component_at(alloc, path.rows())? else {
            return Ok(None);
        };
        let value = counting_value(alloc, Property::FramePeriod, &processor)?;
        Ok(period_in(value))
    }

    /// The least period of the threads of these domains.
    fn least_period(&self, alloc: Global, paths: &[Path]) -> Result<Option<u64>, NoMemory>
        ensures { IfOk result (λ period. period ≡ least_period self.now.tables.now self.now.resolved.now paths.now) }
    {
        let mut least = None;
        for path in paths {
            least = lesser(least, self.period_at(alloc, path.rows())?);
        }
        Ok(least)
    }

    /// The period of the thread of a domain, where that is periodic.
    fn period_at(&self, alloc: Global, path: &[usize]) -> Result<Option<u64>, NoMemory>
        ensures { IfOk result (λ period. period ≡ period_at self.now.tables.now self.now.resolved.now path.now) }
    {
        let Some(thread) = self.thread_at(alloc, path)? else {
            return Ok(None);
        };
        let timing = timing_of(alloc, &thread)?;
        Ok(if_periodic(timing.dispatch, timing.period))
    }
}

fn if_periodic(dispatch: Option<Dispatch>, period: Option<u64>) -> Option<u64>
    ensures { result ≡ if_periodic dispatch period }
{
    match dispatch {
        Some(Dispatch::Periodic) => period,
        Some(Dispatch::Sporadic) | None => None,
    }
}

fn lesser(known: Option<u64>, other: Option<u64>) -> Option<u64>
    ensures { result ≡ lesser known other }
{
    match (known, other) {
        (Some(one), Some(two)) => Some(one.min(two)),
        (Some(one), None) => Some(one),
        (None, other) => other,
    }
}
