//! Names of contracts.

ghost use Rattle.std.specs.Prelude.{◌≡◌, true, IfOk, SomeIff};
ghost use Rattle.hw_text.specs.Name.{lowered};
ghost use Rattle.gumbo_parse.specs.Words.{is_identifier};

use crate::word::Word;
use hw_text::{Name, NameFault, NoMemory};
use std::alloc::Global;
use std::marker::Model;

/// A name in a contract, in lower case: a name of model text that is no word of contracts.
#[derive(Drop)]
pub struct Identifier {
    name: Name,
}

impl Model for Identifier {
    ghost use Rattle.std.specs.Prelude.{◌≡◌, List, ℕ, true};
    ghost use Rattle.hw_text.specs.Name.{lowered};
    ghost use Rattle.gumbo_parse.specs.Words.{is_identifier};

    ghost Value = { List ℕ };

    ghost view = { λ i. i.name };

    ghost invariant = { λ i. (is_identifier i.name ≡ true) × (lowered i.name ≡ i.name) };
}

impl Identifier {
    /// The name that the bytes spell, where they spell one.
    pub fn read(alloc: Global, bytes: &[u8]) -> Result<Option<Identifier>, NoMemory>
        ensures { IfOk result (λ found. SomeIff found (is_identifier bytes.now ≡ true) (lowered bytes.now)) }
    {
        if Word::named(bytes).is_some() {
            return Ok(None);
        }
        match Name::read(alloc, bytes) {
            Ok(name) => Ok(Some(Identifier { name })),
            Err(NameFault::BadName) => Ok(None),
            Err(NameFault::NoMemory) => Err(NoMemory),
        }
    }

    /// The same name, which is one of models too.
    pub fn name(&self) -> &Name
        ensures { result.now ≡ self.now }
    {
        &self.name
    }

    /// The bytes of the name.
    pub fn rows(&self) -> &[u8]
        ensures bytes { result.now ≡ self.now }
        ensures identifier { is_identifier self.now ≡ true }
        ensures lower { lowered self.now ≡ self.now }
    {
        self.name.rows()
    }

    /// An equal name.
    pub fn copy(&self) -> Result<Identifier, NoMemory>
        ensures { IfOk result (λ copy. copy ≡ self.now) }
    {
        Ok(Identifier {
            name: self.name.copy()?,
        })
    }
}
