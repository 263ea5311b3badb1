//! The tokens that have values of their own.

ghost use Rattle.std.specs.Prelude.{◌≡◌, [], codes, refl, Some, IfOk};
ghost use Rattle.gumbo_parse.specs.declared.token.Token.TheVariants as token;
ghost use Rattle.gumbo_parse.specs.ClassNames.{other_of};
ghost use Rattle.gumbo_parse.specs.ShapeSamples.{a_base};
ghost use Rattle.gumbo_parse.specs.Values.{name_of, number_of, text_of, base_of, start};

use crate::class_name::ClassName;
use crate::description::Description;
use crate::expression::Named;
use crate::token::Token;
use hw_reading::{Integer, Terminal};
use hw_text::{BaseType, NoMemory, Place, Placed};
use std::alloc::Global;

/// The name that the token is, and where it stands.
fn name_of(token: &Placed<Token>) -> Result<Option<Named>, NoMemory>
    ensures { IfOk result (λ found. found ≡ name_of token.now) }
{
    match &token.token {
        Token::Name(name) => Ok(Some(Named {
            name: name.copy()?,
            place: token.place,
        })),
        _ => Ok(None),
    }
}

/// A name.
pub struct NameAt;

impl Terminal for NameAt {
    type Token = Token;

    type Value = Named;

    ghost value = { name_of };

    fn value(_alloc: Global, token: &Placed<Token>) -> Result<Option<Self::Value>, NoMemory> {
        name_of(token)
    }

    ghost sample = { (record { token = token.Name (codes "a"); place = start }, record { name = codes "a"; place = start }, refl) };
}

/// A name that is not `base_types`.
pub struct OtherNameAt;

impl Terminal for OtherNameAt {
    type Token = Token;

    type Value = ClassName;

    ghost value = { other_of };

    fn value(_alloc: Global, token: &Placed<Token>) -> Result<Option<Self::Value>, NoMemory> {
        match &token.token {
            Token::Name(name) => Ok(ClassName::of(name.copy()?, token.place)),
            _ => Ok(None),
        }
    }

    ghost sample = { (record { token = token.Name (codes "a"); place = start }, record { name = codes "a"; place = start; other = refl }, refl) };
}

/// A whole number, and where it stands.
pub struct NumberAt;

impl Terminal for NumberAt {
    type Token = Token;

    type Value = (Place, Integer);

    ghost value = { number_of };

    fn value(_alloc: Global, token: &Placed<Token>) -> Result<Option<Self::Value>, NoMemory> {
        match &token.token {
            Token::Number(number) => Ok(Some((token.place, Integer::new(number.value())))),
            _ => Ok(None),
        }
    }

    ghost sample = { (record { token = token.Number 0; place = start }, (start, 0), refl) };
}

/// What stands between quotes.
pub struct TextAt;

impl Terminal for TextAt {
    type Token = Token;

    type Value = Description;

    ghost value = { text_of };

    fn value(_alloc: Global, token: &Placed<Token>) -> Result<Option<Self::Value>, NoMemory> {
        match &token.token {
            Token::Text(text) => Ok(Some(text.copy()?)),
            _ => Ok(None),
        }
    }

    ghost sample = { (record { token = token.Text []; place = start }, [], refl) };
}

/// The name of a base type.
pub struct BaseAt;

impl Terminal for BaseAt {
    type Token = Token;

    type Value = BaseType;

    ghost value = { base_of };

    fn value(_alloc: Global, token: &Placed<Token>) -> Result<Option<Self::Value>, NoMemory> {
        match &token.token {
            Token::Name(name) => Ok(BaseType::named(name.rows())),
            _ => Ok(None),
        }
    }

    ghost sample = { a_base };
}
