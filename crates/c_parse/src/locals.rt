//! The readers of local variables.

ghost use Rattle.std.specs.Prelude.{◌≡◌};
ghost use Rattle.hw_text.specs.Reading.{Reads, Anything, begins};
ghost use Rattle.c_parse.specs.Values.{is_plain_type};
ghost use Rattle.c_parse.specs.PlainGrammar.{SpellsLocal, LocalBehind};

use crate::keyword::Keyword;
use crate::leaf::{read_one, sign};
use crate::local_values::local_value;
use crate::mark::Mark;
use crate::terminals::NameAt;
use crate::token::Token;
use crate::types::type_name;
use c_tree::{Dialect, Statement, TypeName};
use hw_text::{Cursor, Placed, ReadFault};
use std::alloc::Global;

/// Whether a type that is no name is ahead.
pub fn stands_plain_type(tokens: &Cursor<'_, Placed<Token>>) -> bool
    ensures { result ≡ begins is_plain_type tokens.now }
{
    match tokens.peek() {
        Some(token) => matches!(
            &token.token,
            Token::Keyword(Keyword::Integer(_)) | Token::Keyword(Keyword::Bool)
        ),
        None => false,
    }
}

/// Reads a local variable of this type, whose type was passed.
pub fn local_behind(
    alloc: Global,
    tokens: &mut Cursor<'_, Placed<Token>>,
    dialect: Dialect,
    class: TypeName,
) -> Result<Statement, ReadFault>
    ensures { Reads (LocalBehind dialect class) Anything tokens.old tokens.new result }
{
    let name = read_one::<NameAt>(alloc, tokens)?;
    let value = local_value(alloc, tokens, dialect)?;
    sign(tokens, Mark::Semicolon)?;
    Ok(Statement::Local { class, name, value })
}

/// Reads a local variable.
pub fn local(
    alloc: Global,
    tokens: &mut Cursor<'_, Placed<Token>>,
    dialect: Dialect,
) -> Result<Statement, ReadFault>
    ensures { Reads (SpellsLocal dialect) Anything tokens.old tokens.new result }
{
    let class = type_name(alloc, tokens)?;
    local_behind(alloc, tokens, dialect, class)
}
