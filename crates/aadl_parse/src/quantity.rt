//! Reading numbers with signs and units, and ranges.

ghost use Rattle.std.specs.Prelude.{◌≡◌, [], ◌∷◌, codes, refl};
ghost use Rattle.hw_text.specs.Language.{◌⋅◌};
ghost use Rattle.hw_text.specs.Reading.{Reads, begins};
ghost use Rattle.aadl_parse.specs.ValueParts.{an_up_to};
ghost use Rattle.aadl_parse.specs.Shapes.{one_of, Without};
ghost use Rattle.aadl_parse.specs.SimpleValue.{Symbol, range_with, SpellsQuantity, SpellsRange, quantity_starts, range_goes_on};
ghost use Rattle.aadl_parse.specs.Terminals.{name_shapes};

use crate::leaf::{Leaf, read_one, stands};
use crate::name_token::BareName;
use crate::part::Part;
use crate::repeat::optional;
use crate::symbols::{sign, stands_mark};
use crate::value_token::{NumberToken, SignMark};
use aadl_tree::{Mark, PropertyValue, Quantity, Token};
use hw_text::{Cursor, Placed, ReadFault};
use std::alloc::Global;

/// Reads [ "+" | "-" ] ( INT | REAL ) [ NAME ].
fn quantity(alloc: Global, tokens: &mut Cursor<'_, Placed<Token>>) -> Result<Quantity, ReadFault>
    ensures { Reads SpellsQuantity (Without name_shapes) tokens.old tokens.new result }
{
    let sign = optional::<Leaf<SignMark>>(alloc, tokens)?;
    let number = read_one::<NumberToken>(alloc, tokens)?;
    let unit = optional::<Leaf<BareName>>(alloc, tokens)?;
    Ok(Quantity { sign, number, unit })
}

/// Whether a token is ahead with which a number may begin.
pub fn quantity_stands(tokens: &Cursor<'_, Placed<Token>>) -> bool
    ensures { result ≡ begins (one_of quantity_starts) tokens.now }
{
    stands::<SignMark>(tokens) || stands::<NumberToken>(tokens)
}

/// ".." quantity
struct UpTo;

impl Part for UpTo {
    type Value = ((), Quantity);

    ghost spells = { Symbol (codes "..") ⋅ SpellsQuantity };

    ghost starts = { codes ".." ∷ [] };

    ghost goes_on = { name_shapes };

    ghost sample = { an_up_to.sample };

    ghost begun = { an_up_to.begins };

    fn stands(tokens: &Cursor<'_, Placed<Token>>) -> bool {
        stands_mark(tokens, Mark::Range)
    }

    fn read(
        alloc: Global,
        tokens: &mut Cursor<'_, Placed<Token>>,
    ) -> Result<Self::Value, ReadFault> {
        sign(tokens, Mark::Range)?;
        let to = quantity(alloc, tokens)?;
        Ok(((), to))
    }
}

/// A number alone, or a range to another.
fn range_with(from: Quantity, to: Option<((), Quantity)>) -> PropertyValue
    ensures { result ≡ range_with from to }
{
    match to {
        Some(((), to)) => PropertyValue::Range(from, to),
        None => PropertyValue::Quantity(from),
    }
}

/// Reads quantity [ ".." quantity ].
pub fn range(
    alloc: Global,
    tokens: &mut Cursor<'_, Placed<Token>>,
) -> Result<PropertyValue, ReadFault>
    ensures { Reads SpellsRange (Without range_goes_on) tokens.old tokens.new result }
{
    let from = quantity(alloc, tokens)?;
    let to = optional::<UpTo>(alloc, tokens)?;
    Ok(range_with(from, to))
}
