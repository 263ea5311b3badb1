//! The way to the component at a place in the list.

ghost use Rattle.std.specs.Prelude.{◌≡◌, ℕ, List, ◌++◌, ◌∷◌, [], length, slice_get, take, None, option_map, IfOk, IfSome, IfNone};
ghost use Rattle.aadl_domains.specs.Components.{at_subcomponent, in_rows, components_of, domains_of, counted};
ghost use Rattle.aadl_domains.specs.Counting.{AreCounts, AreRounds, IsSpan, AreSpans};

use crate::counts::Counts;
use crate::listing::{LEVELS, Listing};
use crate::sought::Sought;
use crate::spans::{Span, Spans};
use aadl_names::{Resolved, Tables};
use aadl_tree::Category;
use hw_text::{NoMemory, Rows};
use std::alloc::Global;

/// A component below the root of an instance: the rows of the subcomponents on the way to it in their
/// table, from outside.
pub type Path = Rows<usize>;

/// Where the way to a component goes on: a subcomponent, and the place in the list at and below it.
#[derive(Clone, Copy)]
struct Passed {
    row: usize,
    category: Category,
    place: u32,
}

/// What is known of a model before its components are listed.
#[derive(Drop)]
pub struct Survey {
    pub rounds: Rows<Counts>,
    pub spans: Spans,
}

impl<'a> Listing<'a> {
    pub fn survey(&self, alloc: Global) -> Result<Survey, NoMemory>
        ensures long { IfOk result (λ survey. length survey.rounds ≡ 34) }
        ensures rounds { IfOk result (λ survey. AreRounds self.now.sought self.now.tables.now self.now.resolved.now survey.rounds) }
        ensures spans { IfOk result (λ survey. AreSpans self.now.tables.now survey.spans) }
    {
        Ok(Survey {
            rounds: self.rounds(alloc)?,
            spans: Spans::of(alloc, self.tables)?,
        })
    }

    /// The subcomponent of an implementation at or below which the component at a place stands.
    fn passed(
        &self,
        below: &Counts,
        span: Span,
        implementation: usize,
        place: u32,
    ) -> Option<Passed>
        requires { IsSpan self.now.tables.now.subcomponents implementation span }
        ensures some { IfSome result (λ found. (inside : ℕ → List (List ℕ)) → AreCounts below.now inside → slice_get (in_rows self.now.sought inside self.now.resolved.now implementation 0 self.now.tables.now.subcomponents) place ≡ slice_get (at_subcomponent self.now.sought inside self.now.resolved.now found.row found.category) found.place) }
        ensures none { IfNone result ((inside : ℕ → List (List ℕ)) → AreCounts below.now inside → slice_get (in_rows self.now.sought inside self.now.resolved.now implementation 0 self.now.tables.now.subcomponents) place ≡ None) }
    {
        let mut rest = place;
        for at in span.start..span.end {
            let row = self.tables.subcomponents.rows().get(at)?;
            let category = row.part.get().category;
            if row.owner == implementation {
                let worth = self.worth(below, at, category);
                if u64::from(rest) < worth {
                    return Some(Passed {
                        row: at,
                        category,
                        place: rest,
                    });
                }
                rest -= worth as u32;
            }
        }
        None
    }

    /// The component at a place in the list.
    fn component(
        &self,
        alloc: Global,
        survey: &Survey,
        root: usize,
        place: u32,
    ) -> Result<Option<Path>, NoMemory>
        requires long { length survey.now.rounds ≡ 34 }
        requires rounds { AreRounds self.now.sought self.now.tables.now self.now.resolved.now survey.now.rounds }
        requires spans { AreSpans self.now.tables.now survey.now.spans }
        ensures { IfOk result (λ path. path ≡ slice_get (components_of self.now.sought self.now.tables.now self.now.resolved.now root) place) }
    {
        let mut path = Rows::new(alloc);
        let mut within = root;
        let mut rest = place;
        let mut depth = LEVELS;
        while depth > 0 && within < self.tables.implementations.len() {
            depth -= 1;
            let below = &survey.rounds.rows()[depth];
            let Some(passed) = self.passed(below, survey.spans.span(within), within, rest) else {
                return Ok(None);
            };
            if self.sought.is(passed.category) {
                return reached(path, passed);
            }
            let Some(inner) = self.led_to(passed.row, passed.category) else {
                return Ok(None);
            };
            path.push(passed.row)?;
            within = inner;
            rest = passed.place;
        }
        Ok(None)
    }

    /// The first components of the list.
    fn first(
        &self,
        alloc: Global,
        survey: &Survey,
        root: usize,
        limit: u32,
    ) -> Result<Rows<Path>, NoMemory>
        requires long { length survey.now.rounds ≡ 34 }
        requires rounds { AreRounds self.now.sought self.now.tables.now self.now.resolved.now survey.now.rounds }
        requires spans { AreSpans self.now.tables.now survey.now.spans }
        ensures { IfOk result (λ first. first ≡ take limit (components_of self.now.sought self.now.tables.now self.now.resolved.now root)) }
    {
        let mut first = Rows::new(alloc);
        for place in 0..limit {
            match self.component(alloc, survey, root, place)? {
                Some(path) => first.push(path)?,
                None => return Ok(first),
            }
        }
        Ok(first)
    }
}

/// The path that ends at a subcomponent, which is the only component there.
fn reached(path: Path, passed: Passed) -> Result<Option<Path>, NoMemory>
    ensures { IfOk result (λ whole. whole ≡ option_map (λ (last : List ℕ). path ++ last) (slice_get ((passed.row ∷ []) ∷ []) passed.place)) }
{
    if passed.place > 0 {
        return Ok(None);
    }
    let mut whole = path;
    whole.push(passed.row)?;
    Ok(Some(whole))
}

/// How many components an instance has, and the first of them.
#[derive(Drop)]
pub struct Found {
    /// It stands at the last number where there are more.
    pub count: u64,
    pub first: Rows<Path>,
}

/// The components that are sought below a root: how many there are, and the first of them, in
/// depth-first order of declared subcomponents.
pub fn listed(
    alloc: Global,
    tables: &Tables<'_>,
    resolved: &Resolved,
    sought: Sought,
    root: usize,
    limit: u32,
) -> Result<Found, NoMemory>
    ensures count { IfOk result (λ listed. listed.count ≡ counted (length (components_of sought tables.now resolved.now root))) }
    ensures first { IfOk result (λ listed. listed.first ≡ take limit (components_of sought tables.now resolved.now root)) }
{
    let listing = Listing {
        tables,
        resolved,
        sought,
    };
    let survey = listing.survey(alloc)?;
    Ok(Found {
        count: survey.rounds.rows()[LEVELS].of(root),
        first: listing.first(alloc, &survey, root, limit)?,
    })
}

/// The first domains of an instance: one more than a model may have.
pub fn domains(
    alloc: Global,
    tables: &Tables<'_>,
    resolved: &Resolved,
    root: usize,
) -> Result<Rows<Path>, NoMemory>
    ensures { IfOk result (λ domains. domains ≡ take 61 (domains_of tables.now resolved.now root)) }
{
    Ok(listed(alloc, tables, resolved, Sought::Domain, root, 61)?.first)
}
