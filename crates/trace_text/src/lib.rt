//! The text of traces: how lines and values are written.
#![tactic(auto)]

mod line;
mod line_printer;
mod names;
mod piece;
mod pieces;
mod value_printer;
mod work;

pub use line::{Line, Trace};
pub use line_printer::print_line;
pub use piece::{Piece, PieceList};
pub use pieces::pieces_of;
pub use value_printer::print_value;
