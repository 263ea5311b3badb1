//! The reader of traces: from text to the lines that it writes, and back by nothing but the text.

mod events;
mod fault;
mod line;
mod names;
mod numbers;
mod reader;
mod values;
mod words;

pub use fault::TraceFault;
pub use line::{Line, Trace};
pub use reader::read_trace;
