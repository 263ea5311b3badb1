//! References that contracts see as what they refer to.

ghost use Rattle.std.specs.Prelude.{◌≡◌};

use std::marker::Model;

/// A reference into a model's tree; in contracts it is the part of the tree itself.
#[derive(Drop)]
pub struct Held<'a, T> {
    item: &'a T,
}

impl<'a, T> Model for Held<'a, T> {
    ghost Value = { T };

    ghost coded = { T.code };

    ghost view = { λ h. h.item.now };
}

impl<'a, T> Held<'a, T> {
    pub fn new(item: &'a T) -> Self
        ensures { result ≡ item.now }
    {
        Held { item }
    }

    pub fn get(&self) -> &'a T
        ensures { result.now ≡ self.now }
    {
        self.item
    }
}
