//! The headings of quantifiers, and how they are read.

ghost use Rattle.std.specs.Prelude.{[], ◌∷◌};
ghost use Rattle.hw_text.specs.Language.{Maybe};
ghost use Rattle.hw_text.specs.Reading.{Reads, Anything};
ghost use Rattle.gumbo_parse.specs.declared.shape.Shape.TheVariants as shape;
ghost use Rattle.gumbo_parse.specs.declared.mark.Mark.TheVariants as mark;
ghost use Rattle.gumbo_parse.specs.Grammar.{Sign, SpellsBound, SpellsQuantification};
ghost use Rattle.gumbo_parse.specs.Values.{Without};

use crate::expression::Bound;
use crate::mark::Mark;
use crate::quantification::Quantification;
use crate::shape::Shape;
use crate::tables::QUANTIFIERS;
use crate::terminals::{NameAt, NumberAt};
use crate::token::Token;
use crate::word::Word;
use hw_reading::{read_listed, read_one, stands, symbol};
use hw_text::{Cursor, Place, Placed, ReadFault};
use std::alloc::Global;

/// Reads a minus, where one is ahead.
fn minus(tokens: &mut Cursor<'_, Placed<Token>>) -> Result<Option<Place>, ReadFault>
    ensures { Reads (Maybe (Sign mark.Minus)) (Without (shape.Mark mark.Minus ∷ [])) tokens.old tokens.new result }
{
    if !stands(tokens, Shape::Mark(Mark::Minus)) {
        return Ok(None);
    }
    let place = symbol(tokens, Shape::Mark(Mark::Minus))?;
    Ok(Some(place))
}

/// Reads an end of a range.
fn bound(alloc: Global, tokens: &mut Cursor<'_, Placed<Token>>) -> Result<Bound, ReadFault>
    ensures { Reads SpellsBound Anything tokens.old tokens.new result }
{
    let minus = minus(tokens)?;
    let (place, number) = read_one::<NumberAt>(alloc, tokens)?;
    Ok(Bound {
        negative: minus.is_some(),
        number,
        place,
    })
}

/// Reads what stands before the body of a quantifier.
pub fn quantification(
    alloc: Global,
    tokens: &mut Cursor<'_, Placed<Token>>,
) -> Result<Quantification, ReadFault>
    ensures { Reads SpellsQuantification Anything tokens.old tokens.new result }
{
    let (place, quantifier) = read_listed(tokens, &QUANTIFIERS)?;
    let variable = read_one::<NameAt>(alloc, tokens)?;
    symbol(tokens, Shape::Word(Word::In))?;
    let from = bound(alloc, tokens)?;
    symbol(tokens, Shape::Mark(Mark::Below))?;
    let below = bound(alloc, tokens)?;
    symbol(tokens, Shape::Mark(Mark::Colon))?;
    Ok(Quantification {
        place,
        quantifier,
        variable,
        from,
        below,
    })
}
