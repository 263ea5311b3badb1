//! The marks of models.

ghost use Rattle.std.specs.Prelude.{◌≡◌, ◌<◌, length, IfSome};
ghost use Rattle.std.specs.Option.{option_map};
ghost use Rattle.hw_text.specs.Text.{mark_among};
ghost use Rattle.aadl_tree.specs.Marks.{mark_spelling, mark_at};

use hw_text::behind_bytes;

/// A token that is neither word, number, text nor annex.
#[derive(Clone, Copy, Debug, PartialEq, Eq)]
pub enum Mark {
    Addition,
    Association,
    Arrow,
    Range,
    DoubleColon,
    Semicolon,
    Colon,
    Comma,
    Dot,
    OpenParenthesis,
    CloseParenthesis,
    OpenBrace,
    CloseBrace,
    OpenBracket,
    CloseBracket,
    Plus,
    Minus,
}

/// The marks, each before those that it begins with.
static MARKS: [Mark; 17] = [
    Mark::Addition,
    Mark::Association,
    Mark::Arrow,
    Mark::Range,
    Mark::DoubleColon,
    Mark::Semicolon,
    Mark::Colon,
    Mark::Comma,
    Mark::Dot,
    Mark::OpenParenthesis,
    Mark::CloseParenthesis,
    Mark::OpenBrace,
    Mark::CloseBrace,
    Mark::OpenBracket,
    Mark::CloseBracket,
    Mark::Plus,
    Mark::Minus,
];

impl Mark {
    pub fn spelling(self) -> &'static str
        ensures exact { result.now ≡ mark_spelling self }
        ensures some { 0 < length result.now }
    {
        match self {
            Mark::Addition => "+=>",
            Mark::Association => "=>",
            Mark::Arrow => "->",
            Mark::Range => "..",
            Mark::DoubleColon => "::",
            Mark::Semicolon => ";",
            Mark::Colon => ":",
            Mark::Comma => ",",
            Mark::Dot => ".",
            Mark::OpenParenthesis => "(",
            Mark::CloseParenthesis => ")",
            Mark::OpenBrace => "{",
            Mark::CloseBrace => "}",
            Mark::OpenBracket => "[",
            Mark::CloseBracket => "]",
            Mark::Plus => "+",
            Mark::Minus => "-",
        }
    }

    /// The longest mark at the front of a text, and the text behind it.
    #[tactic(auto, unfolding(crate::specs::Marks::mark_at))]
    pub fn at(bytes: &[u8]) -> Option<(Mark, &[u8])>
        ensures exact { option_map (λ r. (r.0, r.1.now)) result ≡ mark_at bytes.now }
        ensures shorter { IfSome result (λ r. length r.1.now < length bytes.now) }
    {
        Mark::among(&MARKS, bytes)
    }

    /// The first of these marks that stands at the front of a text, and the text behind it.
    fn among<'a>(marks: &[Mark], bytes: &'a [u8]) -> Option<(Mark, &'a [u8])>
        ensures exact { option_map (λ r. (r.0, r.1.now)) result ≡ mark_among mark_spelling marks.now bytes.now }
        ensures shorter { IfSome result (λ r. length r.1.now < length bytes.now) }
    {
        for &mark in marks {
            if let Some(rest) = behind_bytes(bytes, mark.spelling().as_bytes()) {
                return Some((mark, rest));
            }
        }
        None
    }
}
