//! The words of the contract language.

ghost use Rattle.std.specs.Prelude.{◌≡◌};
ghost use Rattle.hw_text.specs.Name.{is_same_word};
ghost use Rattle.gumbo_parse.specs.Words.{word_spelling, word_among, word_named};

/// A word that the grammar quotes, and that is no name.
#[derive(Clone, Copy, PartialEq, Eq)]
pub enum Word {
    State,
    Integration,
    Initialize,
    /// The other spelling of `initialize`.
    Initialise,
    Compute,
    Handle,
    Assume,
    Guarantee,
    Implies,
    Or,
    And,
    Not,
    True,
    False,
    In,
    HasEvent,
    NoSend,
    MustSend,
    ForAll,
    Exists,
}

static WORDS: [Word; 20] = [
    Word::State,
    Word::Integration,
    Word::Initialize,
    Word::Initialise,
    Word::Compute,
    Word::Handle,
    Word::Assume,
    Word::Guarantee,
    Word::Implies,
    Word::Or,
    Word::And,
    Word::Not,
    Word::True,
    Word::False,
    Word::In,
    Word::HasEvent,
    Word::NoSend,
    Word::MustSend,
    Word::ForAll,
    Word::Exists,
];

impl Word {
    /// The word in the case in which it is printed.
    pub fn spelling(self) -> &'static str
        ensures { result.now ≡ word_spelling self }
    {
        match self {
            Word::State => "state",
            Word::Integration => "integration",
            Word::Initialize => "initialize",
            Word::Initialise => "initialise",
            Word::Compute => "compute",
            Word::Handle => "handle",
            Word::Assume => "assume",
            Word::Guarantee => "guarantee",
            Word::Implies => "implies",
            Word::Or => "or",
            Word::And => "and",
            Word::Not => "not",
            Word::True => "true",
            Word::False => "false",
            Word::In => "In",
            Word::HasEvent => "HasEvent",
            Word::NoSend => "NoSend",
            Word::MustSend => "MustSend",
            Word::ForAll => "forall",
            Word::Exists => "exists",
        }
    }

    /// Whether the bytes spell the word, in whatever case.
    fn is_spelled(self, bytes: &[u8]) -> bool
        ensures { result ≡ is_same_word bytes.now (word_spelling self) }
    {
        bytes.eq_ignore_ascii_case(self.spelling().as_bytes())
    }

    /// The word that the bytes spell, in whatever case.
    #[tactic(auto, unfolding(crate::specs::Words::word_named))]
    pub fn named(bytes: &[u8]) -> Option<Word>
        ensures { result ≡ word_named bytes.now }
    {
        Word::among(&WORDS, bytes)
    }

    /// The first of these words that the bytes spell, in whatever case.
    fn among(words: &[Word], bytes: &[u8]) -> Option<Word>
        ensures { result ≡ word_among words.now bytes.now }
    {
        for &word in words {
            if word.is_spelled(bytes) {
                return Some(word);
            }
        }
        None
    }
}
