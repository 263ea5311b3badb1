//! The marks of the contract language.

ghost use Rattle.std.specs.Prelude.{◌≡◌, ◌<◌, length, IfSome};
ghost use Rattle.std.specs.Option.{option_map};
ghost use Rattle.hw_text.specs.Text.{mark_among};
ghost use Rattle.gumbo_parse.specs.Marks.{mark_spelling, mark_at};

use hw_text::behind_bytes;

/// A token that is neither word, number nor text.
#[derive(Clone, Copy, PartialEq, Eq)]
pub enum Mark {
    Semicolon,
    Colon,
    DoubleColon,
    Comma,
    Dot,
    OpenParenthesis,
    CloseParenthesis,
    OpenBracket,
    CloseBracket,
    Equal,
    NotEqual,
    Less,
    LessOrEqual,
    Greater,
    GreaterOrEqual,
    Plus,
    Minus,
    Star,
    Slash,
    Percent,
    Ampersand,
    Bar,
    Bang,
    /// `->:`
    Implication,
    /// `..<`
    Below,
    /// `+=>`, a mark of models alone.
    Addition,
    /// `=>`, a mark of models alone.
    Association,
    /// `->`, a mark of models alone.
    Arrow,
    /// `..`, a mark of models alone.
    Range,
    /// `{`, a mark of models alone.
    OpenBrace,
    /// `}`, a mark of models alone.
    CloseBrace,
}

/// The marks, each before those that it begins with.
static MARKS: [Mark; 31] = [
    Mark::Implication,
    Mark::Below,
    Mark::Addition,
    Mark::DoubleColon,
    Mark::Equal,
    Mark::NotEqual,
    Mark::LessOrEqual,
    Mark::GreaterOrEqual,
    Mark::Association,
    Mark::Arrow,
    Mark::Range,
    Mark::Semicolon,
    Mark::Colon,
    Mark::Comma,
    Mark::Dot,
    Mark::OpenParenthesis,
    Mark::CloseParenthesis,
    Mark::OpenBracket,
    Mark::CloseBracket,
    Mark::Less,
    Mark::Greater,
    Mark::Plus,
    Mark::Minus,
    Mark::Star,
    Mark::Slash,
    Mark::Percent,
    Mark::Ampersand,
    Mark::Bar,
    Mark::Bang,
    Mark::OpenBrace,
    Mark::CloseBrace,
];

impl Mark {
    /// The bytes of the mark.
    pub fn spelling(self) -> &'static str
        ensures exact { result.now ≡ mark_spelling self }
        ensures some { 0 < length result.now }
    {
        match self {
            Mark::Semicolon => ";",
            Mark::Colon => ":",
            Mark::DoubleColon => "::",
            Mark::Comma => ",",
            Mark::Dot => ".",
            Mark::OpenParenthesis => "(",
            Mark::CloseParenthesis => ")",
            Mark::OpenBracket => "[",
            Mark::CloseBracket => "]",
            Mark::Equal => "==",
            Mark::NotEqual => "!=",
            Mark::Less => "<",
            Mark::LessOrEqual => "<=",
            Mark::Greater => ">",
            Mark::GreaterOrEqual => ">=",
            Mark::Plus => "+",
            Mark::Minus => "-",
            Mark::Star => "*",
            Mark::Slash => "/",
            Mark::Percent => "%",
            Mark::Ampersand => "&",
            Mark::Bar => "|",
            Mark::Bang => "!",
            Mark::Implication => "->:",
            Mark::Below => "..<",
            Mark::Addition => "+=>",
            Mark::Association => "=>",
            Mark::Arrow => "->",
            Mark::Range => "..",
            Mark::OpenBrace => "{",
            Mark::CloseBrace => "}",
        }
    }

    /// The longest mark at the front of a text, and the text behind it.
    #[tactic(auto, unfolding(crate::specs::Marks::mark_at))]
    pub fn at(bytes: &[u8]) -> Option<(Mark, &[u8])>
        ensures exact { option_map (λ r. (r.0, r.1.now)) result ≡ mark_at bytes.now }
        ensures shorter { IfSome result (λ r. length r.1.now < length bytes.now) }
    {
        Mark::among(&MARKS, bytes)
    }

    /// The first of these marks that stands at the front of a text, and the text behind it.
    fn among<'a>(marks: &[Mark], bytes: &'a [u8]) -> Option<(Mark, &'a [u8])>
        ensures exact { option_map (λ r. (r.0, r.1.now)) result ≡ mark_among mark_spelling marks.now bytes.now }
        ensures shorter { IfSome result (λ r. length r.1.now < length bytes.now) }
    {
        for &mark in marks {
            if let Some(rest) = behind_bytes(bytes, mark.spelling().as_bytes()) {
                return Some((mark, rest));
            }
        }
        None
    }
}
