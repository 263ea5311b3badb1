//! Integer literals.

ghost use Rattle.std.specs.Prelude.{◌≡◌, true};
ghost use Rattle.c_tree.specs.Numerals.{is_numeral};

use crate::decimal::decimal_text;
use crate::integer_type::IntegerType;
use crate::numeral_text::{is_numeral, meaning};
use hw_text::{ByteList, NoMemory};
use std::alloc::Global;

/// An integer literal as it is written.
#[derive(Debug, Drop)]
pub struct Numeral {
    pub bytes: ByteList,
    pub ghost spelled: { is_numeral bytes ≡ true },
}

#[tactic(auto, using(crate::proofs::Spellings::no_numeral, crate::proofs::Spellings::numeral_of_bytes))]
impl Numeral {
    ghost use Rattle.std.specs.Prelude.{◌≡◌, ◌<◌, ◌^◌, true, Some, IfOk};
    ghost use Rattle.c_tree.specs.Numerals.{is_numeral, numeral_value, numeral_type};
    ghost use Rattle.c_tree.specs.Spellings.{numeral_of};
    ghost use Rattle.c_tree.specs.Decimals.{decimal_text};

    /// The literal that the bytes spell, where they spell one that a type holds.
    pub fn read(alloc: Global, bytes: &[u8]) -> Result<Option<Numeral>, NoMemory>
        ensures { IfOk result (λ found. found ≡ numeral_of bytes.now) }
    {
        if !is_numeral(bytes) {
            return Ok(None);
        }
        let literal = Numeral::of(alloc, bytes)?;
        Ok(Some(literal))
    }

    /// The literal that the bytes are.
    pub fn of(alloc: Global, bytes: &[u8]) -> Result<Numeral, NoMemory>
        requires { is_numeral bytes.now ≡ true }
        ensures { IfOk result (λ literal. literal.bytes ≡ bytes.now) }
    {
        Ok(Numeral {
            bytes: ByteList::of(alloc, bytes)?,
        })
    }

    /// The literal of a number in base ten.
    pub fn decimal(alloc: Global, number: u64) -> Result<Numeral, NoMemory>
        ensures exact { IfOk result (λ literal. literal.bytes ≡ decimal_text number) }
        ensures value { IfOk result (λ literal. numeral_value literal.bytes ≡ number) }
    {
        let text = decimal_text(alloc, number)?;
        Numeral::of(alloc, text.rows())
    }

    pub fn rows(&self) -> &[u8]
        ensures { result.now ≡ self.now.bytes }
    {
        self.bytes.rows()
    }

    pub fn value(&self) -> u64
        ensures { result ≡ numeral_value self.now.bytes }
    {
        match meaning(self.bytes.rows()) {
            Some((value, _)) => value,
            None => unreachable!(),
        }
    }

    /// Its type, before it meets another operand.
    pub fn class(&self) -> IntegerType
        ensures { numeral_type self.now.bytes ≡ Some result }
    {
        match meaning(self.bytes.rows()) {
            Some((_, class)) => class,
            None => unreachable!(),
        }
    }

    /// An equal literal.
    pub fn copy(&self) -> Result<Numeral, NoMemory>
        ensures { IfOk result (λ copy. copy ≡ self.now) }
    {
        Ok(Numeral {
            bytes: self.bytes.copy()?,
        })
    }
}
