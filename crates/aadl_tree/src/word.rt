//! The reserved words of models.

ghost use Rattle.std.specs.Prelude.{◌≡◌};
ghost use Rattle.hw_text.specs.Name.{is_same_word};
ghost use Rattle.aadl_tree.specs.Words.{word_spelling, word_among, word_named, is_left_out};

/// A reserved word: one of the grammar, or one of AADL that this profile leaves out (SAE AS5506,
/// reserved words; docs/formats/model.md).
#[derive(Clone, Copy, Debug, PartialEq, Eq)]
pub enum Word {
    Abstract,
    Access,
    Annex,
    Applies,
    Bus,
    Calls,
    Classifier,
    Compute,
    Connections,
    Constant,
    Data,
    Delta,
    Device,
    End,
    Event,
    Extends,
    False,
    Feature,
    Features,
    Flow,
    Flows,
    Group,
    Implementation,
    In,
    Inverse,
    Memory,
    Modes,
    None,
    Out,
    Package,
    Parameter,
    Port,
    Private,
    Process,
    Processor,
    Properties,
    Prototypes,
    Provides,
    Public,
    Reference,
    Refined,
    Renames,
    Requires,
    SelfWord,
    Subcomponents,
    Subprogram,
    System,
    Thread,
    To,
    True,
    Virtual,
    With,
}

static WORDS: [Word; 52] = [
    Word::Abstract,
    Word::Access,
    Word::Annex,
    Word::Applies,
    Word::Bus,
    Word::Calls,
    Word::Classifier,
    Word::Compute,
    Word::Connections,
    Word::Constant,
    Word::Data,
    Word::Delta,
    Word::Device,
    Word::End,
    Word::Event,
    Word::Extends,
    Word::False,
    Word::Feature,
    Word::Features,
    Word::Flow,
    Word::Flows,
    Word::Group,
    Word::Implementation,
    Word::In,
    Word::Inverse,
    Word::Memory,
    Word::Modes,
    Word::None,
    Word::Out,
    Word::Package,
    Word::Parameter,
    Word::Port,
    Word::Private,
    Word::Process,
    Word::Processor,
    Word::Properties,
    Word::Prototypes,
    Word::Provides,
    Word::Public,
    Word::Reference,
    Word::Refined,
    Word::Renames,
    Word::Requires,
    Word::SelfWord,
    Word::Subcomponents,
    Word::Subprogram,
    Word::System,
    Word::Thread,
    Word::To,
    Word::True,
    Word::Virtual,
    Word::With,
];

impl Word {
    /// The word in lower case.
    pub fn spelling(self) -> &'static str
        ensures { result.now ≡ word_spelling self }
    {
        match self {
            Word::Abstract => "abstract",
            Word::Access => "access",
            Word::Annex => "annex",
            Word::Applies => "applies",
            Word::Bus => "bus",
            Word::Calls => "calls",
            Word::Classifier => "classifier",
            Word::Compute => "compute",
            Word::Connections => "connections",
            Word::Constant => "constant",
            Word::Data => "data",
            Word::Delta => "delta",
            Word::Device => "device",
            Word::End => "end",
            Word::Event => "event",
            Word::Extends => "extends",
            Word::False => "false",
            Word::Feature => "feature",
            Word::Features => "features",
            Word::Flow => "flow",
            Word::Flows => "flows",
            Word::Group => "group",
            Word::Implementation => "implementation",
            Word::In => "in",
            Word::Inverse => "inverse",
            Word::Memory => "memory",
            Word::Modes => "modes",
            Word::None => "none",
            Word::Out => "out",
            Word::Package => "package",
            Word::Parameter => "parameter",
            Word::Port => "port",
            Word::Private => "private",
            Word::Process => "process",
            Word::Processor => "processor",
            Word::Properties => "properties",
            Word::Prototypes => "prototypes",
            Word::Provides => "provides",
            Word::Public => "public",
            Word::Reference => "reference",
            Word::Refined => "refined",
            Word::Renames => "renames",
            Word::Requires => "requires",
            Word::SelfWord => "self",
            Word::Subcomponents => "subcomponents",
            Word::Subprogram => "subprogram",
            Word::System => "system",
            Word::Thread => "thread",
            Word::To => "to",
            Word::True => "true",
            Word::Virtual => "virtual",
            Word::With => "with",
        }
    }

    /// Whether this profile leaves the word out wherever its grammar does not quote it.
    pub fn is_left_out(self) -> bool
        ensures { result ≡ is_left_out self }
    {
        match self {
            Word::Abstract
            | Word::Access
            | Word::Bus
            | Word::Calls
            | Word::Compute
            | Word::Delta
            | Word::Extends
            | Word::Feature
            | Word::Flow
            | Word::Flows
            | Word::Group
            | Word::In
            | Word::Inverse
            | Word::Memory
            | Word::Modes
            | Word::Out
            | Word::Parameter
            | Word::Private
            | Word::Prototypes
            | Word::Provides
            | Word::Refined
            | Word::Renames
            | Word::Requires
            | Word::SelfWord
            | Word::Subprogram
            | Word::Virtual => true,
            _ => false,
        }
    }

    /// Whether the bytes spell the word, in whatever case.
    fn is_spelled(self, bytes: &[u8]) -> bool
        ensures { result ≡ is_same_word bytes.now (word_spelling self) }
    {
        bytes.eq_ignore_ascii_case(self.spelling().as_bytes())
    }

    /// The word that the bytes spell, in whatever case.
    #[tactic(auto, unfolding(crate::specs::Words::word_named))]
    pub fn named(bytes: &[u8]) -> Option<Word>
        ensures { result ≡ word_named bytes.now }
    {
        Word::among(&WORDS, bytes)
    }

    /// The first of these words that the bytes spell, in whatever case.
    fn among(words: &[Word], bytes: &[u8]) -> Option<Word>
        ensures { result ≡ word_among words.now bytes.now }
    {
        for &word in words {
            if word.is_spelled(bytes) {
                return Some(word);
            }
        }
        None
    }
}
