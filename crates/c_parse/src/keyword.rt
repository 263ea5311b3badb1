//! The words that the grammar uses.

ghost use Rattle.std.specs.Prelude.{◌≡◌};
ghost use Rattle.std.specs.Str.{bytes_eq};
ghost use Rattle.c_parse.specs.Keywords.{keyword_text, keyword_among, keyword_named};

use c_tree::IntegerType;

/// A word that the grammar uses.
#[derive(Clone, Copy, Debug, PartialEq, Eq)]
pub enum Keyword {
    Static,
    Void,
    Return,
    True,
    False,
    If,
    Else,
    For,
    Extern,
    Volatile,
    Typedef,
    Enum,
    Struct,
    Break,
    Bool,
    Integer(IntegerType),
}

static KEYWORDS: [Keyword; 23] = [
    Keyword::Static,
    Keyword::Void,
    Keyword::Return,
    Keyword::True,
    Keyword::False,
    Keyword::If,
    Keyword::Else,
    Keyword::For,
    Keyword::Extern,
    Keyword::Volatile,
    Keyword::Typedef,
    Keyword::Enum,
    Keyword::Struct,
    Keyword::Break,
    Keyword::Bool,
    Keyword::Integer(IntegerType::I8),
    Keyword::Integer(IntegerType::I16),
    Keyword::Integer(IntegerType::I32),
    Keyword::Integer(IntegerType::I64),
    Keyword::Integer(IntegerType::U8),
    Keyword::Integer(IntegerType::U16),
    Keyword::Integer(IntegerType::U32),
    Keyword::Integer(IntegerType::U64),
];

impl Keyword {
    pub fn spelling(self) -> &'static str
        ensures { result.now ≡ keyword_text self }
    {
        match self {
            Keyword::Static => "static",
            Keyword::Void => "void",
            Keyword::Return => "return",
            Keyword::True => "true",
            Keyword::False => "false",
            Keyword::If => "if",
            Keyword::Else => "else",
            Keyword::For => "for",
            Keyword::Extern => "extern",
            Keyword::Volatile => "volatile",
            Keyword::Typedef => "typedef",
            Keyword::Enum => "enum",
            Keyword::Struct => "struct",
            Keyword::Break => "break",
            Keyword::Bool => "bool",
            Keyword::Integer(class) => class.spelling(),
        }
    }

    /// The word that the bytes spell.
    #[tactic(auto, unfolding(crate::specs::Keywords::keyword_named))]
    pub fn named(bytes: &[u8]) -> Option<Keyword>
        ensures { result ≡ keyword_named bytes.now }
    {
        Keyword::among(&KEYWORDS, bytes)
    }

    /// The first of these words that the bytes spell.
    fn among(words: &[Keyword], bytes: &[u8]) -> Option<Keyword>
        ensures { result ≡ keyword_among words.now bytes.now }
    {
        for &word in words {
            if bytes == word.spelling().as_bytes() {
                return Some(word);
            }
        }
        None
    }
}
