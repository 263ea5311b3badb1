//! What the readers of every language share: tokens told apart by their shapes, the tokens of a text
//! one after another, whole lists of tokens, integers, and refusals by kind.
#![tactic(auto)]

mod bracket;
mod grammar;
mod integer;
mod lexical;
mod refusing;
mod shaped;
mod table;
mod terminal;

pub use bracket::Bracket;
pub use grammar::{Grammar, read_whole};
pub use integer::Integer;
pub use lexical::{Lexical, tokens_from};
pub use refusing::{limit, named, plain};
pub use shaped::{Shaped, stands, stands_either, symbol};
pub use table::{listed, read_listed, stands_listed};
pub use terminal::{Terminal, read_one};
