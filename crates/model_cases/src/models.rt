//! The questions over models, and those over graphs.

ghost use Rattle.std.specs.Prelude.{◌≡◌};
ghost use Rattle.aadl_links.specs.Wires.{feature_keys, subcomponent_keys};

use crate::components::tell_counting;
use crate::conditions::tell_conditions;
use crate::domains::tell_domains;
use crate::graphs::tell_first_on_loop;
use crate::instances::tell_instance;
use crate::tables::tell_tables;
use aadl_names::{References, Resolved, Scope, Tables, declared};
use aadl_parse::parse;
use aadl_tree::Package;
use case_files::{Answerer, Context, Question, Trouble};
use hw_text::{Fault, NoMemory, TextBuf, WordList};
use std::alloc::Global;
use std::str;

/// Who answers; no question speaks of an earlier one.
#[derive(Clone, Copy)]
pub struct Models;

impl Answerer for Models {
    fn begin(&mut self, _alloc: Global) -> Result<(), NoMemory> {
        Ok(())
    }

    fn answer(
        &mut self,
        alloc: Global,
        context: &Context,
        question: &Question,
        out: &mut TextBuf,
    ) -> Result<bool, Trouble> {
        match question.word.rows() {
            b"first_on_loop" => {
                tell_first_on_loop(alloc, question.whole(alloc)?.rows(), out)?;
                Ok(true)
            }
            b"tables" | b"counts" | b"domains" | b"instance" | b"conditions" => {
                of_model(alloc, context, question, out)?;
                Ok(true)
            }
            _ => Ok(false),
        }
    }
}

/// `WORD MODEL REST`, the model being a text by name: what the word asks of the model, or the line
/// of the refusal of its text as the file `m`.
fn of_model(
    alloc: Global,
    context: &Context,
    question: &Question,
    out: &mut TextBuf,
) -> Result<(), Trouble> {
    let words = question.words(alloc)?;
    match parse(alloc, text_of(context, &words)?) {
        Ok(model) => of_package(alloc, &model, question.word.rows(), &words, out),
        Err(Fault::Refused(refusal)) => {
            out.word(refusal.line(alloc, b"m")?.rows())?;
            Ok(())
        }
        Err(Fault::NoMemory) => Err(Trouble::NoMemory),
    }
}

/// The text that the first of the words names.
fn text_of<'a>(context: &'a Context, words: &WordList) -> Result<&'a [u8], Trouble> {
    let Some(name) = words.rows().first() else {
        return Err(Trouble::BadLine);
    };
    match str::from_utf8(name.rows()) {
        Ok(name) => context.text(name),
        Err(_) => Err(Trouble::BadLine),
    }
}

/// What a word asks of a model that is read.
fn of_package(
    alloc: Global,
    model: &Package,
    word: &[u8],
    words: &WordList,
    out: &mut TextBuf,
) -> Result<(), Trouble> {
    let tables = declared(alloc, model)?;
    of_tables(alloc, model, &tables, word, words, out)
}

/// What a word asks of a model that has these tables.
fn of_tables<'a>(
    alloc: Global,
    model: &Package,
    tables: &'a Tables<'_>,
    word: &[u8],
    words: &WordList,
    out: &mut TextBuf,
) -> Result<(), Trouble> {
    let references = References::of(alloc, model, tables)?;
    let resolved = Resolved::of(alloc, tables, &references)?;
    of_names(
        alloc,
        model,
        tables,
        &references,
        &resolved,
        word,
        words,
        out,
    )
}

/// What a word asks of a model that has these tables, names and meanings.
fn of_names<'a>(
    alloc: Global,
    model: &Package,
    tables: &'a Tables<'_>,
    references: &'a References<'_>,
    resolved: &'a Resolved,
    word: &[u8],
    words: &WordList,
    out: &mut TextBuf,
) -> Result<(), Trouble>
    requires subcomponents { references.now.subcomponents ≡ subcomponent_keys tables.now }
    requires features { references.now.features ≡ feature_keys tables.now }
{
    let scope = Scope {
        tables,
        references,
        resolved,
    };
    match word {
        b"tables" => Ok(tell_tables(alloc, &scope, out)?),
        b"counts" => tell_counting(alloc, &scope, words.rows(), out),
        b"domains" => Ok(tell_domains(alloc, &scope, out)?),
        b"instance" => Ok(tell_instance(alloc, &scope, out)?),
        b"conditions" => Ok(tell_conditions(alloc, model, &scope, out)?),
        _ => Err(Trouble::BadLine),
    }
}
