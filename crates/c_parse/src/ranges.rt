//! The ranges of loops over numbers, found at their second literal.

ghost use Rattle.std.specs.Prelude.{◌≡◌, reverse};
ghost use Rattle.std.specs.Option.{option_map};
ghost use Rattle.c_parse.specs.RangeEnds.{before_between, before_start, last_empty, empty_range_at};

use crate::bounds::last_signed;
use crate::ends::{before_integer, before_mark, before_name, before_word};
use crate::keyword::Keyword;
use crate::mark::Mark;
use crate::token::Token;
use hw_text::{Place, Placed};

/// Where the second literal begins of the empty range that ends with the token at the index.
pub fn empty_range_at(tokens: &[Placed<Token>], index: usize) -> Option<Place>
    ensures { result ≡ empty_range_at tokens.now index }
{
    if index >= tokens.len() {
        return None;
    }
    let (front, _) = tokens.split_at(index + 1);
    last_empty(front)
}

/// Where the second literal begins of the empty range that the tokens end with.
#[tactic(auto, unfolding(crate::specs::RangeEnds::last_empty))]
fn last_empty(tokens: &[Placed<Token>]) -> Option<Place>
    ensures { result ≡ last_empty (reverse tokens.now) }
{
    let (below, rest) = last_signed(tokens)?;
    let rest = before_between(rest)?;
    let (from, rest) = last_signed(rest)?;
    before_start(rest)?;
    if below.value <= from.value {
        Some(below.place)
    } else {
        None
    }
}

/// The tokens before the `;`, name and `<` between the literals of a range.
#[tactic(auto, unfolding(crate::specs::RangeEnds::before_between))]
fn before_between(tokens: &[Placed<Token>]) -> Option<&[Placed<Token>]>
    ensures { option_map (λ r. reverse r.now) result ≡ before_between (reverse tokens.now) }
{
    let rest = before_mark(tokens, Mark::Less)?;
    let rest = before_name(rest)?;
    before_mark(rest, Mark::Semicolon)
}

/// The tokens before the `for`, bracket, type, name and `=` of a range.
#[tactic(auto, unfolding(crate::specs::RangeEnds::before_start))]
fn before_start(tokens: &[Placed<Token>]) -> Option<&[Placed<Token>]>
    ensures { option_map (λ r. reverse r.now) result ≡ before_start (reverse tokens.now) }
{
    let rest = before_mark(tokens, Mark::Assign)?;
    let rest = before_name(rest)?;
    let rest = before_integer(rest)?;
    let rest = before_mark(rest, Mark::OpenParenthesis)?;
    before_word(rest, Keyword::For)
}
