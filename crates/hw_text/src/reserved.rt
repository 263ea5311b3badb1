//! The words that are no names.

ghost use Rattle.std.specs.Prelude.{◌≡◌, map};
ghost use Rattle.std.specs.List.{list_any};
ghost use Rattle.hw_text.specs.Name.{is_reserved, is_same_word};

/// The reserved words: those of the grammar of models, and those of AADL that this profile leaves
/// out (SAE AS5506, reserved words; docs/formats/model.md).
static RESERVED_WORDS: [&str; 52] = [
    "abstract",
    "access",
    "annex",
    "applies",
    "bus",
    "calls",
    "classifier",
    "compute",
    "connections",
    "constant",
    "data",
    "delta",
    "device",
    "end",
    "event",
    "extends",
    "false",
    "feature",
    "features",
    "flow",
    "flows",
    "group",
    "implementation",
    "in",
    "inverse",
    "memory",
    "modes",
    "none",
    "out",
    "package",
    "parameter",
    "port",
    "private",
    "process",
    "processor",
    "properties",
    "prototypes",
    "provides",
    "public",
    "reference",
    "refined",
    "renames",
    "requires",
    "self",
    "subcomponents",
    "subprogram",
    "system",
    "thread",
    "to",
    "true",
    "virtual",
    "with",
];

/// Whether the word is reserved, in whatever case.
#[tactic(auto, unfolding(crate::specs::Name::is_reserved))]
pub fn is_reserved_word(word: &[u8]) -> bool
    ensures { result ≡ is_reserved word.now }
{
    is_one_of(word, &RESERVED_WORDS)
}

/// Whether the word is one of these, but for case.
fn is_one_of(word: &[u8], words: &[&str]) -> bool
    ensures { result ≡ list_any (is_same_word word.now) (map (λ w. w.now) words.now) }
{
    for other in words {
        if same_word(word, other.as_bytes()) {
            return true;
        }
    }
    false
}

/// Whether two words are the same but for case.
fn same_word(one: &[u8], other: &[u8]) -> bool
    ensures { result ≡ is_same_word one.now other.now }
{
    one.eq_ignore_ascii_case(other)
}
