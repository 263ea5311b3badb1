//! Reading the kinds of ports.

ghost use Rattle.std.specs.Prelude.{[], ◌∷◌, codes};
ghost use Rattle.hw_text.specs.Language.{◌⋅◌, Made};
ghost use Rattle.hw_text.specs.Reading.{Reads};
ghost use Rattle.aadl_parse.specs.Builds.{behind_words};
ghost use Rattle.aadl_parse.specs.Grammar.{SpellsKind};
ghost use Rattle.aadl_parse.specs.Parts.{class_goes_on};
ghost use Rattle.aadl_parse.specs.Shapes.{Without};
ghost use Rattle.aadl_parse.specs.SimpleValue.{Symbol, SpellsClass};

use crate::classes::class;
use crate::symbols::{keyword, stands_word};
use aadl_tree::{Class, PortKind, Token, Word};
use hw_text::{Cursor, Placed, ReadFault};
use std::alloc::Global;

/// Reads "data" "port" class.
fn data_class(alloc: Global, tokens: &mut Cursor<'_, Placed<Token>>) -> Result<Class, ReadFault>
    ensures { Reads (Made behind_words (Symbol (codes "data") ⋅ (Symbol (codes "port") ⋅ SpellsClass))) (Without class_goes_on) tokens.old tokens.new result }
{
    keyword(tokens, Word::Data)?;
    keyword(tokens, Word::Port)?;
    let class = class(alloc, tokens)?;
    Ok(class)
}

/// Reads "data" "port" class | "event" "port" | "event" "data" "port" class.
pub fn kind(alloc: Global, tokens: &mut Cursor<'_, Placed<Token>>) -> Result<PortKind, ReadFault>
    ensures { Reads SpellsKind (Without class_goes_on) tokens.old tokens.new result }
{
    if stands_word(tokens, Word::Data) {
        let class = data_class(alloc, tokens)?;
        return Ok(PortKind::Data(class));
    }
    keyword(tokens, Word::Event)?;
    if stands_word(tokens, Word::Data) {
        let class = data_class(alloc, tokens)?;
        return Ok(PortKind::EventData(class));
    }
    keyword(tokens, Word::Port)?;
    Ok(PortKind::Event)
}
