//! The tokens that have values.

ghost use Rattle.std.specs.Prelude.{◌≡◌, [], ◌∷◌, refl, true, Some};
ghost use Rattle.c_tree.specs.declared.integer_type.IntegerType.TheVariants.{I8};
ghost use Rattle.c_tree.specs.declared.operator.UnaryOperator.TheVariants as unary;
ghost use Rattle.c_parse.specs.declared.keyword.Keyword.TheVariants as keyword;
ghost use Rattle.c_parse.specs.declared.mark.Mark.TheVariants as mark;
ghost use Rattle.c_parse.specs.declared.token.Token.TheVariants as token;
ghost use Rattle.c_parse.specs.Tokens.{start};
ghost use Rattle.c_tree.specs.Spellings.{zero};
ghost use Rattle.c_parse.specs.Samples.{letter_a};
ghost use Rattle.c_parse.specs.Values.{name_of, literal_of, integer_of, truth_of, zero_of};
ghost use Rattle.c_parse.specs.Operators.{unary_of};

use crate::keyword::Keyword;
use crate::leaf::Terminal;
use crate::mark::Mark;
use crate::token::Token;
use c_tree::{IntegerType, Literal, Named, UnaryOperator};
use hw_text::{NoMemory, Place, Placed};
use std::alloc::Global;

/// A name, and where it stands.
pub struct NameAt;

impl Terminal for NameAt {
    type Value = Named;

    ghost value = { name_of };

    fn value(_alloc: Global, token: &Placed<Token>) -> Result<Option<Self::Value>, NoMemory> {
        match &token.token {
            Token::Name(name) => Ok(Some(Named {
                name: name.copy()?,
                place: token.place,
            })),
            _ => Ok(None),
        }
    }

    ghost sample = { (record { token = token.Name letter_a; place = start }, record { name = letter_a; place = start }, refl) };
}

/// A literal, and where it stands.
pub struct LiteralAt;

impl Terminal for LiteralAt {
    type Value = Literal;

    ghost value = { literal_of };

    fn value(_alloc: Global, token: &Placed<Token>) -> Result<Option<Self::Value>, NoMemory> {
        match &token.token {
            Token::Literal(numeral) => Ok(Some(Literal {
                numeral: numeral.copy()?,
                place: token.place,
            })),
            _ => Ok(None),
        }
    }

    ghost sample = { (record { token = token.Literal zero; place = start }, record { numeral = zero; place = start }, refl) };
}

/// The literal that is spelled `0`.
pub struct ZeroAt;

impl Terminal for ZeroAt {
    type Value = Place;

    ghost value = { zero_of };

    fn value(_alloc: Global, token: &Placed<Token>) -> Result<Option<Self::Value>, NoMemory> {
        match &token.token {
            Token::Literal(numeral) if numeral.rows() == b"0".as_slice() => Ok(Some(token.place)),
            _ => Ok(None),
        }
    }

    ghost sample = { (record { token = token.Literal zero; place = start }, start, refl) };
}

/// An integer type, and where it stands.
pub struct IntegerAt;

impl Terminal for IntegerAt {
    type Value = (Place, IntegerType);

    ghost value = { integer_of };

    fn value(_alloc: Global, token: &Placed<Token>) -> Result<Option<Self::Value>, NoMemory> {
        match &token.token {
            Token::Keyword(Keyword::Integer(class)) => Ok(Some((token.place, *class))),
            _ => Ok(None),
        }
    }

    ghost sample = { (record { token = token.Keyword (keyword.Integer I8); place = start }, (start, I8), refl) };
}

/// `true` or `false`, and where it stands.
pub struct TruthAt;

impl Terminal for TruthAt {
    type Value = (Place, bool);

    ghost value = { truth_of };

    fn value(_alloc: Global, token: &Placed<Token>) -> Result<Option<Self::Value>, NoMemory> {
        match &token.token {
            Token::Keyword(Keyword::True) => Ok(Some((token.place, true))),
            Token::Keyword(Keyword::False) => Ok(Some((token.place, false))),
            _ => Ok(None),
        }
    }

    ghost sample = { (record { token = token.Keyword keyword.True; place = start }, (start, true), refl) };
}

/// An operator before an operand, and where it stands.
pub struct UnaryAt;

impl Terminal for UnaryAt {
    type Value = (Place, UnaryOperator);

    ghost value = { unary_of };

    fn value(_alloc: Global, token: &Placed<Token>) -> Result<Option<Self::Value>, NoMemory> {
        match &token.token {
            Token::Mark(Mark::Minus) => Ok(Some((token.place, UnaryOperator::Minus))),
            Token::Mark(Mark::Bang) => Ok(Some((token.place, UnaryOperator::Not))),
            Token::Mark(Mark::Tilde) => Ok(Some((token.place, UnaryOperator::Complement))),
            _ => Ok(None),
        }
    }

    ghost sample = { (record { token = token.Mark mark.Minus; place = start }, (start, unary.Minus), refl) };
}
