//! Reading connections.

ghost use Rattle.std.specs.Prelude.{[], ◌∷◌, codes, refl};
ghost use Rattle.hw_text.specs.Reading.{Reads};
ghost use Rattle.aadl_parse.specs.Grammar.{SpellsEnd, SpellsConnection};
ghost use Rattle.aadl_parse.specs.Parts.{a_connection};
ghost use Rattle.aadl_parse.specs.Shapes.{Without};
ghost use Rattle.aadl_parse.specs.Terminals.{name_shapes};

use crate::leaf::{read_one, stands};
use crate::name_token::NameAt;
use crate::names::DotName;
use crate::own::ending;
use crate::part::{Behind, Part};
use crate::repeat::optional;
use crate::section::Member;
use crate::symbols::{keyword, sign};
use aadl_tree::{Connection, ConnectionEnd, Mark, Token, Word};
use hw_text::{Cursor, Placed, ReadFault};
use std::alloc::Global;

/// Reads NAME [ "." NAME ].
fn tip(alloc: Global, tokens: &mut Cursor<'_, Placed<Token>>) -> Result<ConnectionEnd, ReadFault>
    ensures { Reads SpellsEnd (Without (codes "." ∷ [])) tokens.old tokens.new result }
{
    let first = read_one::<NameAt>(alloc, tokens)?;
    let port = optional::<DotName>(alloc, tokens)?;
    Ok(ConnectionEnd { first, port })
}

/// NAME ":" "port" tip "->" tip [ own ] ";"
pub struct ConnectionText;

impl Part for ConnectionText {
    type Value = Connection;

    ghost spells = { SpellsConnection };

    ghost starts = { name_shapes };

    ghost goes_on = { [] };

    ghost sample = { a_connection.sample };

    ghost begun = { a_connection.begins };

    fn stands(tokens: &Cursor<'_, Placed<Token>>) -> bool {
        stands::<NameAt>(tokens)
    }

    fn read(
        alloc: Global,
        tokens: &mut Cursor<'_, Placed<Token>>,
    ) -> Result<Self::Value, ReadFault> {
        let name = read_one::<NameAt>(alloc, tokens)?;
        sign(tokens, Mark::Colon)?;
        keyword(tokens, Word::Port)?;
        let from = tip(alloc, tokens)?;
        sign(tokens, Mark::Arrow)?;
        let to = tip(alloc, tokens)?;
        let own = ending(alloc, tokens)?;
        Ok(Connection {
            name,
            from,
            to,
            own,
        })
    }
}

impl Behind<ConnectionText> for ConnectionText {
    ghost apart = { refl };
}

impl Member for ConnectionText {
    ghost listed = { refl };
}
