//! The words of a command line, from the arguments of the process.

ghost use Rattle.std.specs.Prelude.{IfOk};
ghost use Rattle.hamr_cli.specs.Arguments.{AreBehindTheName, AreWords, AnswersArguments};
ghost use Rattle.hamr_cli.specs.Outside.{outside};

use crate::{Status, hamr};
use hw_io::{Sink, Store};
use hw_text::{NoMemory, WordList};
use std::alloc::Global;
use std::env::Args;
use std::io;

/// Does what the arguments of the process ask for, the first of which is the program's name. Where
/// they can't be had, as where one of them is no UTF-8 text, that is as no words at all.
pub fn answer<S: Store, O: Sink>(
    alloc: Global,
    args: io::Result<Args>,
    store: &mut S,
    out: &mut O,
) -> Status
    ensures { AnswersArguments args (outside (S.means store.old) (O.means out.old)) (outside (S.means store.new) (O.means out.new)) result }
{
    match words_of(alloc, args) {
        Ok(words) => hamr(alloc, &words, store, out),
        Err(NoMemory) => Status::NoMemory,
    }
}

/// The words of the arguments.
fn words_of(alloc: Global, args: io::Result<Args>) -> Result<WordList, NoMemory>
    ensures { IfOk result (λ words. AreWords args words) }
{
    match args {
        Ok(args) => words_behind_the_name(alloc, args),
        Err(error) if error.kind() == io::ErrorKind::OutOfMemory => Err(NoMemory),
        Err(_) => Ok(WordList::new(alloc)),
    }
}

/// All arguments but the first.
fn words_behind_the_name(alloc: Global, args: Args) -> Result<WordList, NoMemory>
    ensures { IfOk result (λ words. AreBehindTheName args words) }
{
    let mut words = WordList::new(alloc);
    let mut is_name = true;
    for word in args {
        if !is_name {
            words.push(word.as_bytes())?;
        }
        is_name = false;
    }
    Ok(words)
}
