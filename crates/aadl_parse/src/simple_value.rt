//! Reading values that have no other values in them.

ghost use Rattle.std.specs.Prelude.{◌≡◌, []};
ghost use Rattle.hw_text.specs.Reading.{Reads, begins};
ghost use Rattle.aadl_parse.specs.Shapes.{one_of, Without};
ghost use Rattle.aadl_parse.specs.SimpleValue.{SpellsClassifier, SpellsReference, SpellsSimple, simple_starts, value_goes_on};

use crate::classes::class;
use crate::leaf::{read_one, stands};
use crate::name_token::NameAt;
use crate::names::{path, qualified};
use crate::quantity::{quantity_stands, range};
use crate::symbols::{keyword, sign, stands_word};
use crate::value_token::{TextToken, TruthWord};
use aadl_tree::{Mark, PropertyValue, Token, Word};
use hw_text::{Cursor, Placed, ReadFault};
use std::alloc::Global;

/// Reads "classifier" "(" class ")".
fn classifier(
    alloc: Global,
    tokens: &mut Cursor<'_, Placed<Token>>,
) -> Result<PropertyValue, ReadFault>
    ensures { Reads SpellsClassifier (Without []) tokens.old tokens.new result }
{
    keyword(tokens, Word::Classifier)?;
    sign(tokens, Mark::OpenParenthesis)?;
    let class = class(alloc, tokens)?;
    sign(tokens, Mark::CloseParenthesis)?;
    Ok(PropertyValue::Classifier(class))
}

/// Reads "reference" "(" path ")".
fn reference(
    alloc: Global,
    tokens: &mut Cursor<'_, Placed<Token>>,
) -> Result<PropertyValue, ReadFault>
    ensures { Reads SpellsReference (Without []) tokens.old tokens.new result }
{
    keyword(tokens, Word::Reference)?;
    sign(tokens, Mark::OpenParenthesis)?;
    let path = path(alloc, tokens)?;
    sign(tokens, Mark::CloseParenthesis)?;
    Ok(PropertyValue::Reference(path))
}

/// Whether a token is ahead with which such a value may begin.
pub fn simple_stands(tokens: &Cursor<'_, Placed<Token>>) -> bool
    ensures { result ≡ begins (one_of simple_starts) tokens.now }
{
    quantity_stands(tokens)
        || stands::<TextToken>(tokens)
        || stands::<TruthWord>(tokens)
        || stands::<NameAt>(tokens)
        || stands_word(tokens, Word::Classifier)
        || stands_word(tokens, Word::Reference)
}

/// Reads a value that has no other values in it.
pub fn simple_value(
    alloc: Global,
    tokens: &mut Cursor<'_, Placed<Token>>,
) -> Result<PropertyValue, ReadFault>
    ensures { Reads SpellsSimple (Without value_goes_on) tokens.old tokens.new result }
{
    if quantity_stands(tokens) {
        let range = range(alloc, tokens)?;
        return Ok(range);
    }
    if stands::<TextToken>(tokens) {
        let text = read_one::<TextToken>(alloc, tokens)?;
        return Ok(text);
    }
    if stands::<TruthWord>(tokens) {
        let truth = read_one::<TruthWord>(alloc, tokens)?;
        return Ok(PropertyValue::Truth(truth));
    }
    if stands::<NameAt>(tokens) {
        let name = qualified(alloc, tokens)?;
        return Ok(PropertyValue::Name(name));
    }
    if stands_word(tokens, Word::Classifier) {
        let classifier = classifier(alloc, tokens)?;
        return Ok(classifier);
    }
    let reference = reference(alloc, tokens)?;
    Ok(reference)
}
