//! Real literals.

ghost use Rattle.std.specs.Prelude.{◌≡◌, ◌≤◌, true, length, IfOk, SomeIff};
ghost use Rattle.aadl_tree.specs.Text.{is_run_of_digits, is_real_with, is_real};

use hw_text::{ByteClass, ByteList, NoMemory, behind_byte, decimal};
use std::alloc::Global;
use std::marker::Model;

/// A real number as it is written: digits, a point and digits, with single underscores between
/// digits, and less than 2^127 before the point.
#[derive(Debug, Drop)]
pub struct Real {
    bytes: ByteList,
}

impl Model for Real {
    ghost use Rattle.std.specs.Prelude.{◌≡◌, List, ℕ, true};
    ghost use Rattle.aadl_tree.specs.Text.{is_real};

    ghost Value = { List ℕ };

    ghost view = { λ r. r.bytes };

    ghost invariant = { λ r. is_real r.bytes ≡ true };
}

impl Real {
    /// The number that is written so, where one is.
    pub fn read(alloc: Global, bytes: &[u8]) -> Result<Option<Real>, NoMemory>
        ensures { IfOk result (λ found. SomeIff found (is_real bytes.now ≡ true) bytes.now) }
    {
        if !is_real(bytes) {
            return Ok(None);
        }
        Ok(Some(Real {
            bytes: ByteList::of(alloc, bytes)?,
        }))
    }

    pub fn rows(&self) -> &[u8]
        ensures bytes { result.now ≡ self.now }
        ensures real { is_real self.now ≡ true }
    {
        self.bytes.rows()
    }
}

/// Whether the bytes are written as a real number.
#[tactic(auto, unfolding(crate::specs::Text::is_real))]
fn is_real(bytes: &[u8]) -> bool
    ensures { result ≡ is_real bytes.now }
{
    is_real_with(ByteClass::Digits.run_length(bytes), bytes)
}

/// Whether the bytes are written as a real number with so many bytes before the point.
fn is_real_with(whole: usize, bytes: &[u8]) -> bool
    requires { whole ≤ length bytes.now }
    ensures { result ≡ is_real_with whole bytes.now }
{
    let (whole, rest) = bytes.split_at(whole);
    if !is_run_of_digits(whole) || decimal(whole).is_none() {
        return false;
    }
    match behind_byte(rest, b'.') {
        Some(fraction) => is_run_of_digits(fraction),
        None => false,
    }
}

fn is_run_of_digits(bytes: &[u8]) -> bool
    ensures { result ≡ is_run_of_digits bytes.now }
{
    ByteClass::Digits.begins(bytes) && ByteClass::Digits.run_length(bytes) == bytes.len()
}
