//! The rules of the services, by the word of their event.

ghost use Rattle.std.specs.Prelude.{◌≡◌};

/// A rule of the services.
#[derive(Clone, Copy, Debug, PartialEq, Eq)]
pub enum Rule {
    Tick,
    Init,
    Begin,
    Void,
    Compute,
    Send,
    End,
    Receive,
    Put,
    Release,
    Verdict,
}

impl Rule {
    ghost use Rattle.rts_rules.specs.Rule.{word_of};

    /// The word of its event in a trace.
    pub fn word(self) -> &'static str
        ensures { result.now ≡ word_of self }
    {
        match self {
            Rule::Tick => "tick",
            Rule::Init => "init",
            Rule::Begin => "begin",
            Rule::Void => "void",
            Rule::Compute => "compute",
            Rule::Send => "send",
            Rule::End => "end",
            Rule::Receive => "receive",
            Rule::Put => "put",
            Rule::Release => "release",
            Rule::Verdict => "verdict",
        }
    }
}
