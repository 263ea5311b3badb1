//! What a whole list of tokens is to a language.

ghost use Rattle.std.specs.Prelude.{◌≡◌};
ghost use Rattle.hw_text.specs.WholeLists.{passed_in};

/// What a list of tokens is to a part of a grammar.
#[derive(Debug, Drop)]
pub enum Whole<X> {
    /// A text of this value.
    Text(X),
    /// None. A text begins with so many of its tokens, and none with one more.
    Stuck(usize),
}

impl<X> Whole<X> {
    /// How many of so many tokens a text begins with.
    pub fn passed(&self, all: usize) -> usize
        ensures { result ≡ passed_in all self.now }
    {
        match self {
            Whole::Text(_) => all,
            Whole::Stuck(passed) => *passed,
        }
    }
}
