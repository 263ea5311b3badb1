//! The words of C.

ghost use Rattle.std.specs.Prelude.{◌≡◌, map};
ghost use Rattle.std.specs.List.{list_any};
ghost use Rattle.std.specs.Str.{bytes_eq};
ghost use Rattle.hw_types.specs.CWords.{is_c_word};

/// The keywords of C (ISO/IEC 9899:2011, 6.4.1), `bool` and its values, and the names of the integer
/// types.
static C_WORDS: [&str; 55] = [
    "auto",
    "break",
    "case",
    "char",
    "const",
    "continue",
    "default",
    "do",
    "double",
    "else",
    "enum",
    "extern",
    "float",
    "for",
    "goto",
    "if",
    "inline",
    "int",
    "long",
    "register",
    "restrict",
    "return",
    "short",
    "signed",
    "sizeof",
    "static",
    "struct",
    "switch",
    "typedef",
    "union",
    "unsigned",
    "void",
    "volatile",
    "while",
    "_Alignas",
    "_Alignof",
    "_Atomic",
    "_Bool",
    "_Complex",
    "_Generic",
    "_Imaginary",
    "_Noreturn",
    "_Static_assert",
    "_Thread_local",
    "bool",
    "true",
    "false",
    "int8_t",
    "int16_t",
    "int32_t",
    "int64_t",
    "uint8_t",
    "uint16_t",
    "uint32_t",
    "uint64_t",
];

#[tactic(auto, unfolding(hw_types::specs::CWords::is_c_word))]
pub fn is_c_word(name: &[u8]) -> bool
    ensures { result ≡ is_c_word name.now }
{
    is_one_of(name, &C_WORDS)
}

fn is_one_of(name: &[u8], words: &[&str]) -> bool
    ensures { result ≡ list_any (bytes_eq name.now) (map (λ w. w.now) words.now) }
{
    for word in words {
        if name == word.as_bytes() {
            return true;
        }
    }
    false
}
