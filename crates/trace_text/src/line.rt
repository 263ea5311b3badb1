//! A line of a trace.

use hw_text::Rows;
use hw_types::Spot;
use rts_rules::Event;

/// An event, and when it happened.
#[derive(Debug, Drop)]
pub struct Line {
    pub spot: Spot,
    pub event: Event,
}

/// The lines of a trace, the oldest first.
pub type Trace = Rows<Line>;
