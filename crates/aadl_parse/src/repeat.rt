//! Parts of a grammar that stand there or not, and parts that stand there several times.

ghost use Rattle.std.specs.Prelude.{◌++◌, ◌∷◌};
ghost use Rattle.hw_text.specs.Language.{◌⋅◌, Maybe, Each, Made};
ghost use Rattle.hw_text.specs.Reading.{Reads};
ghost use Rattle.aadl_parse.specs.Shapes.{Without};

use crate::part::{Behind, Part};
use aadl_tree::Token;
use hw_text::{Cursor, Placed, ReadFault, Rows};
use std::alloc::Global;

/// Reads a text of the part, where one begins ahead.
pub fn optional<A: Part>(
    alloc: Global,
    tokens: &mut Cursor<'_, Placed<Token>>,
) -> Result<Option<A::Value>, ReadFault>
    ensures { Reads (Maybe A.spells) (Without (A.starts ++ A.goes_on)) tokens.old tokens.new result }
{
    if !A::stands(tokens) {
        return Ok(None);
    }
    let value = A::read(alloc, tokens)?;
    Ok(Some(value))
}

/// Reads texts of the part, as long as one begins ahead, behind those that were read before.
pub fn members<A: Part + Behind<A>>(
    alloc: Global,
    tokens: &mut Cursor<'_, Placed<Token>>,
    earlier: Rows<A::Value>,
) -> Result<Rows<A::Value>, ReadFault>
    ensures { Reads (Made (λ later. earlier ++ later) (Each A.Part.spells)) (Without (A.Part.starts ++ A.Part.goes_on)) tokens.old tokens.new result }
{
    let mut members = earlier;
    'members: while A::stands(tokens) {
        let member = A::read(alloc, tokens)?;
        members.push(member)?;
    }
    Ok(members)
}

/// Reads texts of the part, as long as one begins ahead.
pub fn each<A: Part + Behind<A>>(
    alloc: Global,
    tokens: &mut Cursor<'_, Placed<Token>>,
) -> Result<Rows<A::Value>, ReadFault>
    ensures { Reads (Each A.Part.spells) (Without (A.Part.starts ++ A.Part.goes_on)) tokens.old tokens.new result }
{
    members::<A>(alloc, tokens, Rows::new(alloc))
}

/// Reads texts of the part, as long as one begins ahead, behind a first value.
pub fn behind_first<A: Part + Behind<A>>(
    alloc: Global,
    tokens: &mut Cursor<'_, Placed<Token>>,
    first: A::Value,
) -> Result<Rows<A::Value>, ReadFault>
    ensures { Reads (Made (λ later. first ∷ later) (Each A.Part.spells)) (Without (A.Part.starts ++ A.Part.goes_on)) tokens.old tokens.new result }
{
    let mut started = Rows::new(alloc);
    started.push(first)?;
    members::<A>(alloc, tokens, started)
}

/// Reads texts of the part, of which there is one at least.
pub fn at_least_one<A: Part + Behind<A>>(
    alloc: Global,
    tokens: &mut Cursor<'_, Placed<Token>>,
) -> Result<Rows<A::Value>, ReadFault>
    ensures { Reads (Made (λ p. p.0 ∷ p.1) (A.Part.spells ⋅ Each A.Part.spells)) (Without (A.Part.starts ++ A.Part.goes_on)) tokens.old tokens.new result }
{
    let first = A::read(alloc, tokens)?;
    let mut started = Rows::new(alloc);
    started.push(first)?;
    members::<A>(alloc, tokens, started)
}
