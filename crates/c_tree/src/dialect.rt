//! The two grammars of C texts.

ghost use Rattle.std.specs.Prelude.{◌≡◌};
ghost use Rattle.c_tree.specs.Dialects.{is_full};

/// Which grammar a text is of.
#[derive(Clone, Copy, Debug, PartialEq, Eq)]
pub enum Dialect {
    /// The grammar of users.
    User,
    /// The full grammar, which generated texts are of.
    Full,
}

impl Dialect {
    pub fn is_full(self) -> bool
        ensures { result ≡ is_full self }
    {
        match self {
            Dialect::User => false,
            Dialect::Full => true,
        }
    }
}
