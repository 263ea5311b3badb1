//! The questions on texts of models, contracts and C.

use crate::{names, texts};
use case_files::{Answerer, Context, Question, Trouble};
use hw_text::{NoMemory, TextBuf};
use std::alloc::Global;

/// Who answers; no question speaks of an earlier one.
#[derive(Clone, Copy)]
pub struct Readers;

impl Answerer for Readers {
    fn begin(&mut self, _alloc: Global) -> Result<(), NoMemory> {
        Ok(())
    }

    fn answer(
        &mut self,
        alloc: Global,
        context: &Context,
        question: &Question,
        out: &mut TextBuf,
    ) -> Result<bool, Trouble> {
        Ok(names::answer(alloc, question, out)? || texts::answer(alloc, context, question, out)?)
    }
}
