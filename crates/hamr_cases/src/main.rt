//! Shows what whole commands do: goes through the case files that its words name, and prints each
//! line of them, with the answer below each question.
#![tactic(auto)]

mod commands;

use crate::commands::Commands;
use case_files::show_file;
use hw_io::{DirStore, OutSink};
use std::process::ExitCode;
use std::{env, io};

/// Goes through the files in the order of the words.
fn main(rt: HostRuntime) -> io::Result<ExitCode> {
    let alloc = rt.alloc();
    let mut out = OutSink::new(io::writer(&rt));
    let Ok(mut commands) = Commands::new(alloc) else {
        return Ok(ExitCode::FAILURE);
    };
    for name in env::args(&rt)?.skip(1) {
        let mut disk = DirStore::new(&rt);
        if show_file(alloc, &mut disk, name.as_str(), &mut commands, &mut out).is_err() {
            return Ok(ExitCode::FAILURE);
        }
    }
    Ok(ExitCode::SUCCESS)
}
