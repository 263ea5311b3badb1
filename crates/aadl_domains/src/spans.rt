//! Where the subcomponents of each implementation stand in their table.

ghost use Rattle.std.specs.Prelude.{◌≡◌, ◌<◌, slice_set, IfOk};
ghost use Rattle.aadl_domains.specs.Counting.{span_of, widened, AreSpans};

use aadl_names::{PartRow, Tables};
use aadl_tree::Subcomponent;
use hw_text::NoMemory;
use std::alloc::Global;
use std::marker::Model;

/// A part of a table.
#[derive(Clone, Copy, Debug, PartialEq, Eq)]
pub struct Span {
    pub start: usize,
    pub end: usize,
}

/// One part of the table for each implementation, outside of which it has no subcomponents.
#[derive(Drop)]
pub struct Spans {
    spans: Vec<Span>,
}

impl Model for Spans {
    ghost use Rattle.std.specs.Prelude.{List};
    ghost use Rattle.aadl_domains.specs.declared.spans.Span.{Span};

    ghost Value = { List Span };

    ghost view = { λ s. s.spans.items };
}

impl Spans {
    pub fn of(alloc: Global, tables: &Tables<'_>) -> Result<Self, NoMemory>
        ensures { IfOk result (λ spans. AreSpans tables.now spans) }
    {
        let rows = tables.subcomponents.rows();
        let empty = Span {
            start: rows.len(),
            end: 0,
        };
        let mut spans = Spans {
            spans: Vec::from_elem(alloc, empty, tables.implementations.len())?,
        };
        for (at, row) in rows.iter().enumerate() {
            spans.widen(row.owner, at);
        }
        Ok(spans)
    }

    /// Makes room for a row of an implementation, where there is one.
    fn widen(&mut self, implementation: usize, at: usize)
        requires { at < 18446744073709551615 }
        ensures { self.new ≡ slice_set self.old implementation (widened (span_of self.old implementation) at) }
    {
        if implementation < self.spans.len() {
            self.spans[implementation] = widened(self.spans[implementation], at);
        }
    }

    pub fn span(&self, implementation: usize) -> Span
        ensures { result ≡ span_of self.now implementation }
    {
        match self.spans.get(implementation) {
            Some(&span) => span,
            None => Span { start: 0, end: 0 },
        }
    }
}

/// The part with one more row.
fn widened(span: Span, at: usize) -> Span
    requires { at < 18446744073709551615 }
    ensures { result ≡ widened span at }
{
    Span {
        start: span.start.min(at),
        end: span.end.max(at + 1),
    }
}
