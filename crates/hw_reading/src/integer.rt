//! Integer literals.

ghost use Rattle.std.specs.Prelude.{◌≡◌, ◌++◌, ◌<◌, ◌^◌, pos, OnOk};
ghost use Rattle.std.specs.Fmt.{signed_decimal};

use hw_text::{NoMemory, TextBuf};
use std::marker::Model;

/// A whole number that can be written in a text: one below 2^127.
#[derive(Drop)]
pub struct Integer {
    value: u128,
}

impl Model for Integer {
    ghost use Rattle.std.specs.Prelude.{ℕ, ◌<◌, ◌^◌};

    ghost Value = { ℕ };

    ghost view = { λ i. i.value };

    ghost invariant = { λ i. i.value < 2 ^ 127 };
}

impl Integer {
    /// The literal of this value.
    pub fn new(value: u128) -> Integer
        requires { value < 2 ^ 127 }
        ensures { result ≡ value }
    {
        Integer { value }
    }

    /// What the literal stands for.
    pub fn value(&self) -> u128
        ensures exact { result ≡ self.now }
        ensures bound { result < 2 ^ 127 }
    {
        self.value
    }

    /// Appends its digits.
    pub fn print(&self, out: &mut TextBuf) -> Result<(), NoMemory>
        ensures text { OnOk result (out.new ≡ out.old ++ signed_decimal (pos self.now)) }
        ensures bound { self.now < 2 ^ 127 }
    {
        out.number(self.value() as i128)
    }
}
