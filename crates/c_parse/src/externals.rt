//! The readers of what is declared here and stands elsewhere.

ghost use Rattle.hw_text.specs.Reading.{Reads, Anything};
ghost use Rattle.c_parse.specs.UnitGrammar.{SpellsExternal, SpellsPointer};

use crate::keyword::Keyword;
use crate::leaf::{read_one, sign};
use crate::mark::Mark;
use crate::terminals::NameAt;
use crate::token::Token;
use crate::types::{length, type_name};
use crate::words::word;
use c_tree::{External, Pointer};
use hw_text::{Cursor, Placed, ReadFault};
use std::alloc::Global;

/// Reads an `extern` variable.
pub fn external(
    alloc: Global,
    tokens: &mut Cursor<'_, Placed<Token>>,
) -> Result<External, ReadFault>
    ensures { Reads SpellsExternal Anything tokens.old tokens.new result }
{
    word(tokens, Keyword::Extern)?;
    let class = type_name(alloc, tokens)?;
    let name = read_one::<NameAt>(alloc, tokens)?;
    let length = length(alloc, tokens)?;
    sign(tokens, Mark::Semicolon)?;
    Ok(External {
        class,
        name,
        length,
    })
}

/// Reads a pointer to what is `volatile`.
pub fn pointer(alloc: Global, tokens: &mut Cursor<'_, Placed<Token>>) -> Result<Pointer, ReadFault>
    ensures { Reads SpellsPointer Anything tokens.old tokens.new result }
{
    word(tokens, Keyword::Volatile)?;
    let class = read_one::<NameAt>(alloc, tokens)?;
    sign(tokens, Mark::Star)?;
    let name = read_one::<NameAt>(alloc, tokens)?;
    sign(tokens, Mark::Semicolon)?;
    Ok(Pointer { class, name })
}
