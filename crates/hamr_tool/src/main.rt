//! The program `hamr`.
#![tactic(auto)]

use hamr_cli::answer;
pub use hamr_cli::{Status, hamr};
use hw_io::{DirStore, OutSink};
use std::process::ExitCode;
use std::{env, io};

/// Does what the arguments ask for, over the files and the standard output, and exits with the
/// number of the status.
fn main(rt: HostRuntime) -> ExitCode {
    let mut store = DirStore::new(&rt);
    let mut out = OutSink::new(io::writer(&rt));
    let status = answer(rt.alloc(), env::args(&rt), &mut store, &mut out);
    ExitCode::from(status.number())
}
