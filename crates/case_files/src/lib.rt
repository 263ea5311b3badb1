//! Case files: questions in plain text, with the texts that they speak of, and the walk through a
//! file that prints each line of it with the answer below each question. What the questions mean is
//! for the programs that answer them.
#![tactic(auto)]

mod answerer;
mod bytes;
mod composed;
mod context;
mod devices;
mod escapes;
mod files;
mod line;
mod question;
mod telling;
mod transcript;
mod trouble;

pub use answerer::Answerer;
pub use bytes::{count, number, pieces};
pub use composed::Composed;
pub use context::Context;
pub use devices::{Devices, read, send, write};
pub use escapes::{tell_hex, two_digits};
pub use files::{Unshown, show_file};
pub use question::Question;
pub use telling::{tell_integer, tell_line, tell_number, tell_place, tell_text};
pub use trouble::Trouble;
