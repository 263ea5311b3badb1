//! Who answers the questions of case files.

use crate::context::Context;
use crate::question::Question;
use crate::trouble::Trouble;
use hw_text::{NoMemory, TextBuf};
use std::alloc::Global;

/// The questions of one program, and what those before a question have made.
pub trait Answerer {
    /// A case begins: nothing of the one before it holds on.
    fn begin(&mut self, alloc: Global) -> Result<(), NoMemory>;

    /// Appends the answer to a question, or nothing where it only says what later ones speak of.
    /// Whether it is one of the program's questions.
    fn answer(
        &mut self,
        alloc: Global,
        context: &Context,
        question: &Question,
        out: &mut TextBuf,
    ) -> Result<bool, Trouble>;
}
