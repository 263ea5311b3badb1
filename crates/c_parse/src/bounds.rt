//! The literals of ranges, and what they are worth.

ghost use Rattle.std.specs.Prelude.{◌≡◌, reverse};
ghost use Rattle.std.specs.Option.{option_map};
ghost use Rattle.c_parse.specs.RangeEnds.{last_bound};

use crate::ends::{last, last_mark};
use crate::mark::Mark;
use crate::token::Token;
use c_tree::value_under;
use hw_text::{Place, Placed};

/// A literal of a range: where it begins, which may be at a minus, and its value.
#[derive(Clone, Copy, Debug, PartialEq, Eq)]
pub struct Bound {
    pub place: Place,
    pub value: i128,
}

/// A literal, maybe behind a minus, and the tokens before it.
pub fn last_signed(tokens: &[Placed<Token>]) -> Option<(Bound, &[Placed<Token>])>
    ensures { option_map (λ r. (r.0, reverse r.1.now)) result ≡ last_bound (reverse tokens.now) }
{
    let (placed, rest) = last(tokens)?;
    let Token::Literal(numeral) = &placed.token else {
        return None;
    };
    let (place, negative, rest) = match last_mark(rest, Mark::Minus) {
        Some((place, rest)) => (place, true, rest),
        None => (placed.place, false, rest),
    };
    let value = value_under(negative, numeral);
    Some((Bound { place, value }, rest))
}
