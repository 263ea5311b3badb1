//! The top call of `hamr`: what the words ask for, done over any store and any sink.
#![tactic(auto)]

mod arguments;
mod cause;
mod command;
mod domains;
mod files;
mod judge;
mod judgement;
mod laws;
mod model_file;
mod outputs;
mod package;
mod printing;
mod report;
mod status;
mod thin;
mod tidy;
mod top;
mod trace;
mod verdict;

pub use arguments::answer;
pub use package::read_package;
use report::Report;
pub use status::Status;
pub use top::hamr;
