//! Integer literals.

ghost use Rattle.std.specs.Prelude.{◌≡◌, ◌<◌, ◌^◌};

use std::marker::Model;

/// A whole number that can be written in a model: one below 2^127.
#[derive(Debug, Drop)]
pub struct Integer {
    value: u128,
}

impl Model for Integer {
    ghost use Rattle.std.specs.Prelude.{ℕ, ◌<◌, ◌^◌};

    ghost Value = { ℕ };

    ghost view = { λ i. i.value };

    ghost invariant = { λ i. i.value < 2 ^ 127 };
}

impl Integer {
    pub fn new(value: u128) -> Integer
        requires { value < 2 ^ 127 }
        ensures { result ≡ value }
    {
        Integer { value }
    }

    pub fn value(&self) -> u128
        ensures exact { result ≡ self.now }
        ensures bound { result < 2 ^ 127 }
    {
        self.value
    }
}
