//! Names.

ghost use Rattle.std.specs.Prelude.{◌≡◌, ◌↔◌, true, false, IfOk, OnOk, IsErrOf};
ghost use Rattle.hw_text.specs.Name.{is_name, is_name_tail, is_spelled_as_name, is_letter_or_digit, lowered};

use crate::NoMemory;
use crate::bytes::{is_digit, is_letter};
use crate::reserved::is_reserved_word;
use std::alloc::{AllocError, Global};
use std::marker::Model;
use thiserror::Error;

/// The byte `_`.
const UNDERSCORE: u8 = b'_';

/// A name of a model, in lower case (SAE AS5506, identifiers; case does not matter there).
#[derive(Debug, Drop)]
pub struct Name {
    bytes: Vec<u8>,
}

impl Model for Name {
    ghost use Rattle.std.specs.Prelude.{◌≡◌, List, ℕ, true};
    ghost use Rattle.hw_text.specs.Name.{is_name, lowered};

    ghost Value = { List ℕ };

    ghost view = { λ n. n.bytes.items };

    ghost invariant = { λ n. (is_name n.bytes.items ≡ true) × (lowered n.bytes.items ≡ n.bytes.items) };
}

/// Why bytes gave no name.
#[derive(Clone, Copy, Debug, PartialEq, Eq, Error)]
pub enum NameFault {
    /// They are not spelled as a name, or are a reserved word.
    #[error("not a name")]
    BadName,
    #[error("out of memory")]
    NoMemory,
}

impl From<NoMemory> for NameFault {
    ghost use Rattle.std.specs.Prelude.{◌≡◌};
    ghost use Rattle.hw_text.specs.declared.name.NameFault.TheVariants.{NoMemory as fault_no_memory};

    ghost from_gives = { λ _ fault. fault ≡ fault_no_memory };

    fn from(_: NoMemory) -> Self {
        NameFault::NoMemory
    }
}

impl From<AllocError> for NameFault {
    ghost use Rattle.std.specs.Prelude.{◌≡◌};
    ghost use Rattle.hw_text.specs.declared.name.NameFault.TheVariants.{NoMemory as fault_no_memory};

    ghost from_gives = { λ _ fault. fault ≡ fault_no_memory };

    fn from(_: AllocError) -> Self {
        NameFault::NoMemory
    }
}

impl Name {
    /// The name that the bytes spell, in lower case.
    pub fn read(alloc: Global, bytes: &[u8]) -> Result<Name, NameFault>
        ensures name { IfOk result (λ name. name ≡ lowered bytes.now) }
        ensures good { OnOk result (is_name bytes.now ≡ true) }
        ensures bad { IsErrOf result NameFault.BadName ↔ (is_name bytes.now ≡ false) }
    {
        if !is_spelled(bytes) || is_reserved_word(bytes) {
            return Err(NameFault::BadName);
        }
        Ok(Name {
            bytes: bytes.to_ascii_lowercase(alloc)?,
        })
    }

    pub fn rows(&self) -> &[u8]
        ensures bytes { result.now ≡ self.now }
        ensures name { is_name self.now ≡ true }
        ensures lower { lowered self.now ≡ self.now }
    {
        self.bytes.as_slice()
    }

    /// An equal name.
    pub fn copy(&self) -> Result<Name, NoMemory>
        ensures { IfOk result (λ copy. copy ≡ self.now) }
    {
        Ok(Name {
            bytes: Vec::from_slice(*self.bytes.allocator(), self.bytes.as_slice())?,
        })
    }
}

fn is_word_byte(byte: u8) -> bool
    ensures { result ≡ is_letter_or_digit byte }
{
    is_letter(byte) || is_digit(byte)
}

/// Whether the bytes are spelled as a name, reserved or not.
fn is_spelled(bytes: &[u8]) -> bool
    ensures { result ≡ is_spelled_as_name bytes.now }
{
    let Some((&first, tail)) = bytes.split_first() else {
        return false;
    };
    is_letter(first) && is_tail(tail)
}

/// Whether the bytes may stand behind the first letter of a name.
fn is_tail(bytes: &[u8]) -> bool
    ensures { result ≡ is_name_tail false bytes.now }
{
    let mut after_underscore = false;
    for &byte in bytes {
        if is_word_byte(byte) {
            after_underscore = false;
        } else if byte == UNDERSCORE && !after_underscore {
            after_underscore = true;
        } else {
            return false;
        }
    }
    !after_underscore
}
