//! How the reading of tokens fails.

use crate::NoMemory;

/// Why no value was read from a list of tokens.
#[derive(Clone, Copy, Debug, PartialEq, Eq)]
pub enum ReadFault {
    /// No text of the language goes on with the token at which the reader stands, or ends there.
    Syntax,
    NoMemory,
}

impl From<NoMemory> for ReadFault {
    ghost use Rattle.std.specs.Prelude.{◌≡◌};
    ghost use Rattle.hw_text.specs.declared.read_fault.ReadFault.TheVariants.{NoMemory as read_no_memory};

    ghost from_gives = { λ _ e. e ≡ read_no_memory };

    fn from(_: NoMemory) -> Self {
        ReadFault::NoMemory
    }
}
