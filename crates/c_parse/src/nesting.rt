//! Brackets, and how far an expression goes.

ghost use Rattle.std.specs.Prelude.{◌≡◌, ◌≤◌, ◌<◌, ◌+◌, ◌-◌, ◌^◌, ◌==◌, ◌&&◌, if◌then◌else◌, length};
ghost use Rattle.c_parse.specs.Nesting.{opens, closes, ends, leads, expression_length};

use crate::keyword::Keyword;
use crate::mark::Mark;
use crate::token::Token;
use hw_text::Placed;

/// How many brackets open and close in some tokens.
#[derive(Clone, Copy, Debug, PartialEq, Eq)]
pub struct Brackets {
    opened: usize,
    closed: usize,
}

impl Brackets {
    /// Those in no tokens.
    pub const NONE: Brackets = Brackets {
        opened: 0,
        closed: 0,
    };

    /// Those with one token more.
    pub fn behind(self, token: &Token) -> Brackets
        requires opened { self.opened < 2 ^ 63 }
        requires closed { self.closed < 2 ^ 63 }
        ensures opened { result.opened ≡ self.opened + (if opens token.now then 1 else 0) }
        ensures closed { result.closed ≡ self.closed + (if closes token.now then 1 else 0) }
    {
        Brackets {
            opened: self.opened + usize::from(opens(token)),
            closed: self.closed + usize::from(closes(token)),
        }
    }

    /// How many are open behind the tokens.
    pub fn open(self) -> usize
        ensures { result ≡ self.opened - self.closed }
    {
        self.opened.saturating_sub(self.closed)
    }

    /// Whether an expression that has these tokens so far ends before the next one.
    fn end_before(self, token: &Token) -> bool
        ensures { result ≡ (ends token.now && (self.opened - self.closed == 0)) }
    {
        ends(token) && self.open() == 0
    }
}

/// Whether it is an opening bracket.
pub fn opens(token: &Token) -> bool
    ensures { result ≡ opens token.now }
{
    matches!(
        token,
        Token::Mark(Mark::OpenParenthesis | Mark::OpenBracket | Mark::OpenBrace)
    )
}

/// Whether it is a closing bracket.
fn closes(token: &Token) -> bool
    ensures { result ≡ closes token.now }
{
    matches!(
        token,
        Token::Mark(Mark::CloseParenthesis | Mark::CloseBracket | Mark::CloseBrace)
    )
}

/// Whether an expression ends before it, outside brackets of its own.
fn ends(token: &Token) -> bool
    ensures { result ≡ ends token.now }
{
    closes(token) || matches!(token, Token::Mark(Mark::Semicolon | Mark::Comma))
}

/// Whether an expression begins behind it, unless a call does.
pub fn leads(token: &Token) -> bool
    ensures { result ≡ leads token.now }
{
    matches!(
        token,
        Token::Mark(Mark::Assign | Mark::OpenParenthesis | Mark::OpenBracket | Mark::Comma)
            | Token::Keyword(Keyword::Return)
    )
}

/// How many of these tokens the expression has that begins with them, up to the one that ends it.
pub fn expression_length(tokens: &[Placed<Token>]) -> usize
    ensures exact { result ≡ expression_length tokens.now }
    ensures within { result ≤ length tokens.now }
{
    let mut brackets = Brackets::NONE;
    for (index, placed) in tokens.iter().enumerate() {
        if brackets.end_before(&placed.token) {
            return index;
        }
        brackets = brackets.behind(&placed.token);
    }
    tokens.len()
}
