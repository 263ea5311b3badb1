//! The categories of components.

ghost use Rattle.std.specs.Prelude.{◌≡◌};
ghost use Rattle.aadl_tree.specs.Canonical.{category_word};

use crate::word::Word;

/// What kind of part a component is.
#[derive(Clone, Copy, Debug, PartialEq, Eq)]
pub enum Category {
    Data,
    Thread,
    Process,
    System,
    Device,
    Processor,
}

impl Category {
    pub fn word(self) -> Word
        ensures { result ≡ category_word self }
    {
        match self {
            Category::Data => Word::Data,
            Category::Thread => Word::Thread,
            Category::Process => Word::Process,
            Category::System => Word::System,
            Category::Device => Word::Device,
            Category::Processor => Word::Processor,
        }
    }
}
