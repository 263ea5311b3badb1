//! The top call.

ghost use Rattle.hamr_cli.specs.Answer.{IsAnswer, IsAnswerOf};
ghost use Rattle.hamr_cli.specs.Asked.{asked};
ghost use Rattle.hamr_cli.specs.Command.{Command as Asked, IsRow, IsNoRow};
ghost use Rattle.hamr_cli.specs.Complete.{Serves, IsDoneOrNoMemory};
ghost use Rattle.hamr_cli.specs.Files.{HoldsTheSame};
ghost use Rattle.hamr_cli.specs.Outside.{outside};
ghost use Rattle.hamr_cli.specs.Status.{IsRefusal, IsWordsOrNothing};

use crate::Status;
use crate::command::Command;
use crate::outputs::{run_judge, run_no_row, run_tidy};
use crate::printing::print_result;
use hw_io::{Sink, Store};
use hw_text::WordList;
use std::alloc::Global;

/// Does what the words ask for: reads the files that they name, writes files where the command does,
/// prints one text, and answers the status of that text. The words are those behind the program's name.
pub fn hamr<S: Store, O: Sink>(
    alloc: Global,
    words: &WordList,
    store: &mut S,
    out: &mut O,
) -> Status
    // What is printed and written has its cause, and so has the status.
    ensures answer { IsAnswer words.now
        (outside (S.means store.old) (O.means out.old)) (outside (S.means store.new) (O.means out.new)) result }

    // Where nothing outside fails, the output of the command goes out whole, or memory is wanting.
    ensures complete { (command : Asked) → IsRow words.now command →
        Serves (outside (S.means store.old) (O.means out.old)) (outside (S.means store.new) (O.means out.new)) command →
        IsDoneOrNoMemory (outside (S.means store.old) (O.means out.old)) (outside (S.means store.new) (O.means out.new)) command result }

    // Words that are no row are refused as words.
    ensures no_row { IsNoRow words.now → IsWordsOrNothing result }

    // Where something is refused, no file is written.
    ensures kept { IsRefusal result → HoldsTheSame (S.means store.old) (S.means store.new) }
{
    perform(alloc, words, store, out)
}

fn perform<S: Store, O: Sink>(alloc: Global, words: &WordList, store: &mut S, out: &mut O) -> Status
    ensures answer { IsAnswer words.now
        (outside (S.means store.old) (O.means out.old)) (outside (S.means store.new) (O.means out.new)) result }
    ensures kept { IsRefusal result → HoldsTheSame (S.means store.old) (S.means store.new) }
{
    match Command::read(words.rows()) {
        Some(command) => run(alloc, command, store, out),
        None => print_result(out, run_no_row(alloc)),
    }
}

/// Does what the command asks for.
fn run<S: Store, O: Sink>(alloc: Global, command: Command<'_>, store: &mut S, out: &mut O) -> Status
    ensures answer { IsAnswerOf (asked command.entry)
        (outside (S.means store.old) (O.means out.old)) (outside (S.means store.new) (O.means out.new)) result }
    ensures kept { IsRefusal result → HoldsTheSame (S.means store.old) (S.means store.new) }
{
    match command {
        Command::Judge { model, trace } => {
            let given = run_judge(alloc, store, model, trace);
            print_result(out, given)
        }
        Command::Tidy { model } => {
            let given = run_tidy(alloc, store, model);
            print_result(out, given)
        }
    }
}
