//! The questions on architectures.

use crate::rows::arch_of_rows;
use crate::runs::{tell_arch, tell_events, tell_names};
use crate::schedules::{tell_all_sources, tell_schedule};
use arch_model::Arch;
use case_files::{Answerer, Context, Question, Trouble};
use hw_text::{NoMemory, TextBuf};
use std::alloc::Global;

/// Who answers; no question speaks of an earlier one.
#[derive(Clone, Copy)]
pub struct Services;

impl Answerer for Services {
    fn begin(&mut self, _alloc: Global) -> Result<(), NoMemory> {
        Ok(())
    }

    /// Each question is one on the architecture whose rows are a text by name.
    fn answer(
        &mut self,
        alloc: Global,
        context: &Context,
        question: &Question,
        out: &mut TextBuf,
    ) -> Result<bool, Trouble> {
        match question.word.rows() {
            b"architecture" => {
                let arch = arch_of(alloc, context, question)?;
                tell_arch(&arch, out)?;
                tell_names(alloc, &arch, question.text.rows(), out)?;
            }
            b"events" => {
                let arch = arch_of(alloc, context, question)?;
                tell_events(alloc, &arch, question.text.rows(), out)?;
            }
            b"schedule" => tell_schedule(alloc, &arch_of(alloc, context, question)?, out)?,
            b"sources" => tell_all_sources(alloc, &arch_of(alloc, context, question)?, out)?,
            _ => return Ok(false),
        }
        Ok(true)
    }
}

/// The architecture whose rows are the text of this name.
fn arch_of(alloc: Global, context: &Context, question: &Question) -> Result<Arch, Trouble> {
    arch_of_rows(alloc, context.text(question.name()?)?)
}
