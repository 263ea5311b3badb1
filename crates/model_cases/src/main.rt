//! Shows what the libraries of models answer: goes through the case files that its words name, and
//! prints each line of them, with the answer below each question.
#![tactic(auto)]

mod components;
mod conditions;
mod domains;
mod elements;
mod graphs;
mod instances;
mod models;
mod tables;

use crate::models::Models;
use case_files::show_file;
use hw_io::{DirStore, OutSink};
use std::process::ExitCode;
use std::{env, io};

/// Goes through the files in the order of the words.
fn main(rt: HostRuntime) -> io::Result<ExitCode> {
    let alloc = rt.alloc();
    let mut out = OutSink::new(io::writer(&rt));
    for name in env::args(&rt)?.skip(1) {
        let mut disk = DirStore::new(&rt);
        if show_file(alloc, &mut disk, name.as_str(), &mut Models, &mut out).is_err() {
            return Ok(ExitCode::FAILURE);
        }
    }
    Ok(ExitCode::SUCCESS)
}
