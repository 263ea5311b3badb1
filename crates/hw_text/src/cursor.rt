//! A place in a list of tokens, from which readers go on.

ghost use Rattle.std.specs.Prelude.{◌≡◌, length, drop, Some, None, MatchOption};
ghost use Rattle.hw_text.specs.Reading.{first};

use std::marker::Model;

/// The tokens that are left to be read.
#[derive(Drop)]
pub struct Cursor<'a, T> {
    rest: &'a [T],
}

impl<'a, T> Model for Cursor<'a, T> {
    ghost use Rattle.std.specs.Prelude.{List};
    ghost use Rattle.std.specs.Coded.{coded_list};

    ghost Value = { List T };

    ghost coded = { coded_list T.code };

    ghost view = { λ c. c.rest.now };
}

impl<'a, T> Cursor<'a, T> {
    /// At the first of these tokens.
    pub fn new(tokens: &'a [T]) -> Self
        ensures { result ≡ tokens.now }
    {
        Cursor { rest: tokens }
    }

    /// How many tokens are left.
    pub fn left(&self) -> usize
        ensures { result ≡ length self.now }
    {
        self.rest.len()
    }

    /// The token at which the reader stands, which it is not to pass yet.
    pub fn peek(&self) -> Option<&'a T>
        ensures { MatchOption result (first self.now ≡ None) (λ t. first self.now ≡ Some t.now) }
    {
        self.rest.first()
    }

    /// Passes one token, if one is left.
    pub fn pass(&mut self)
        ensures { self.new ≡ drop 1 self.old }
    {
        if let Some((_, rest)) = self.rest.split_first() {
            self.rest = rest;
        }
    }
}
