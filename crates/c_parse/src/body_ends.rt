//! Where the statements of a block or of a function end.

ghost use Rattle.std.specs.Prelude.{◌≡◌};
ghost use Rattle.hw_text.specs.Reading.{begins};
ghost use Rattle.c_parse.specs.StatementGrammar.{ends_body};

use crate::keyword::Keyword;
use crate::mark::Mark;
use crate::token::Token;
use hw_text::{Cursor, Placed};

/// Whether the token stands behind the statements of a block.
fn ends_body(token: &Placed<Token>) -> bool
    ensures { result ≡ ends_body token.now }
{
    matches!(
        &token.token,
        Token::Mark(Mark::CloseBrace) | Token::Keyword(Keyword::Return)
    )
}

/// Whether the end of statements is ahead.
pub fn stands_end(tokens: &Cursor<'_, Placed<Token>>) -> bool
    ensures { result ≡ begins ends_body tokens.now }
{
    match tokens.peek() {
        Some(token) => ends_body(token),
        None => false,
    }
}
