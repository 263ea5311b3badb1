//! How many brackets are open behind tokens.

ghost use Rattle.std.specs.Prelude.{◌≡◌, ◌<◌, ◌^◌};
ghost use Rattle.hw_reading.specs.Brackets.{open_behind_one};

/// What a token is to the brackets around it.
#[derive(Clone, Copy)]
pub enum Bracket {
    Opens,
    Closes,
    Neither,
}

impl Bracket {
    /// How many brackets are open behind it, so many being open before it.
    pub fn open_behind(self, depth: usize) -> usize
        requires { depth < 2 ^ 63 }
        ensures { result ≡ open_behind_one depth self }
    {
        match self {
            Bracket::Opens => depth + 1,
            Bracket::Closes => depth.saturating_sub(1),
            Bracket::Neither => depth,
        }
    }
}
