//! How far a chain of `else if`s goes.

ghost use Rattle.std.specs.Prelude.{◌≡◌, ◌&&◌, ◌||◌, nat_lt};
ghost use Rattle.hw_text.specs.Reading.{begins};
ghost use Rattle.c_tree.specs.Dialects.{is_full};
ghost use Rattle.c_parse.specs.declared.keyword.Keyword.TheVariants as keyword;
ghost use Rattle.c_parse.specs.Values.{is_word};

use crate::keyword::Keyword;
use crate::token::Token;
use crate::words::stands_word;
use c_tree::Dialect;
use hw_text::{Cursor, Placed};

/// How many `else if`s a chain of users may have.
pub const LINKS: usize = 64;

/// Whether a chain of so many `else if`s goes on with an `if`, which is ahead.
pub fn goes_on(tokens: &Cursor<'_, Placed<Token>>, dialect: Dialect, links: usize) -> bool
    ensures { result ≡ (begins (is_word keyword.If) tokens.now && (is_full dialect || nat_lt links 64)) }
{
    stands_word(tokens, Keyword::If) && (dialect.is_full() || links < LINKS)
}
