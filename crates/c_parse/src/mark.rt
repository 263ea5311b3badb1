//! The marks of C.

ghost use Rattle.std.specs.Prelude.{◌≡◌, ◌<◌, length, IfSome};
ghost use Rattle.std.specs.Option.{option_map};
ghost use Rattle.hw_text.specs.Text.{mark_among};
ghost use Rattle.c_parse.specs.Marks.{mark_text, mark_at};

use hw_text::behind_bytes;

/// A token that is neither word, name nor literal.
#[derive(Clone, Copy, Debug, PartialEq, Eq)]
pub enum Mark {
    ShiftLeft,
    ShiftRight,
    LessOrEqual,
    GreaterOrEqual,
    Equal,
    NotEqual,
    And,
    Or,
    Increment,
    Decrement,
    /// `->`
    Arrow,
    OpenBrace,
    CloseBrace,
    OpenParenthesis,
    CloseParenthesis,
    OpenBracket,
    CloseBracket,
    Semicolon,
    Comma,
    Dot,
    /// `=`
    Assign,
    Less,
    Greater,
    Plus,
    Minus,
    Star,
    Slash,
    Percent,
    /// `&`
    Ampersand,
    /// `|`
    Bar,
    /// `^`
    Caret,
    /// `!`
    Bang,
    /// `~`
    Tilde,
}

/// The marks, each before those that it begins with.
static MARKS: [Mark; 33] = [
    Mark::ShiftLeft,
    Mark::ShiftRight,
    Mark::LessOrEqual,
    Mark::GreaterOrEqual,
    Mark::Equal,
    Mark::NotEqual,
    Mark::And,
    Mark::Or,
    Mark::Increment,
    Mark::Decrement,
    Mark::Arrow,
    Mark::OpenBrace,
    Mark::CloseBrace,
    Mark::OpenParenthesis,
    Mark::CloseParenthesis,
    Mark::OpenBracket,
    Mark::CloseBracket,
    Mark::Semicolon,
    Mark::Comma,
    Mark::Dot,
    Mark::Assign,
    Mark::Less,
    Mark::Greater,
    Mark::Plus,
    Mark::Minus,
    Mark::Star,
    Mark::Slash,
    Mark::Percent,
    Mark::Ampersand,
    Mark::Bar,
    Mark::Caret,
    Mark::Bang,
    Mark::Tilde,
];

impl Mark {
    pub fn spelling(self) -> &'static str
        ensures exact { result.now ≡ mark_text self }
        ensures some { 0 < length result.now }
    {
        match self {
            Mark::ShiftLeft => "<<",
            Mark::ShiftRight => ">>",
            Mark::LessOrEqual => "<=",
            Mark::GreaterOrEqual => ">=",
            Mark::Equal => "==",
            Mark::NotEqual => "!=",
            Mark::And => "&&",
            Mark::Or => "||",
            Mark::Increment => "++",
            Mark::Decrement => "--",
            Mark::Arrow => "->",
            Mark::OpenBrace => "{",
            Mark::CloseBrace => "}",
            Mark::OpenParenthesis => "(",
            Mark::CloseParenthesis => ")",
            Mark::OpenBracket => "[",
            Mark::CloseBracket => "]",
            Mark::Semicolon => ";",
            Mark::Comma => ",",
            Mark::Dot => ".",
            Mark::Assign => "=",
            Mark::Less => "<",
            Mark::Greater => ">",
            Mark::Plus => "+",
            Mark::Minus => "-",
            Mark::Star => "*",
            Mark::Slash => "/",
            Mark::Percent => "%",
            Mark::Ampersand => "&",
            Mark::Bar => "|",
            Mark::Caret => "^",
            Mark::Bang => "!",
            Mark::Tilde => "~",
        }
    }

    /// The longest mark at the front of a text, and the text behind it.
    #[tactic(auto, unfolding(crate::specs::Marks::mark_at))]
    pub fn at(bytes: &[u8]) -> Option<(Mark, &[u8])>
        ensures exact { option_map (λ r. (r.0, r.1.now)) result ≡ mark_at bytes.now }
        ensures shorter { IfSome result (λ r. length r.1.now < length bytes.now) }
    {
        Mark::among(&MARKS, bytes)
    }

    /// The first of these marks that stands at the front of a text, and the text behind it.
    fn among<'a>(marks: &[Mark], bytes: &'a [u8]) -> Option<(Mark, &'a [u8])>
        ensures exact { option_map (λ r. (r.0, r.1.now)) result ≡ mark_among mark_text marks.now bytes.now }
        ensures shorter { IfSome result (λ r. length r.1.now < length bytes.now) }
    {
        for &mark in marks {
            if let Some(rest) = behind_bytes(bytes, mark.spelling().as_bytes()) {
                return Some((mark, rest));
            }
        }
        None
    }
}
