//! The tokens that have values in property values.

ghost use Rattle.std.specs.Prelude.{[], ◌∷◌, true, refl};
ghost use Rattle.aadl_tree.specs.declared.token.Token.TheVariants as token;
ghost use Rattle.aadl_tree.specs.declared.mark.Mark.TheVariants as mark;
ghost use Rattle.aadl_tree.specs.declared.word.Word.TheVariants as word;
ghost use Rattle.aadl_tree.specs.declared.value.Sign.TheVariants as sign;
ghost use Rattle.aadl_tree.specs.declared.value.Number.TheVariants as number;
ghost use Rattle.aadl_tree.specs.declared.value.PropertyValue.TheVariants as value;
ghost use Rattle.aadl_parse.specs.Stops.{start};
ghost use Rattle.aadl_parse.specs.ValueTokens.{sign_shapes, sign_of, sign-shaped, number_shapes, number_of, number-shaped, text_shapes, text_of, text-shaped, truth_shapes, truth_of, truth-shaped};

use crate::leaf::Terminal;
use crate::shape::shape;
use aadl_tree::{Integer, Mark, Number, PropertyValue, Quoted, Real, Sign, Token, Word};
use hw_text::{NoMemory, Placed};
use std::alloc::Global;

/// "+" | "-"
pub struct SignMark;

impl Terminal for SignMark {
    type Value = Sign;

    ghost value = { sign_of };

    ghost shapes = { sign_shapes };

    fn is_shaped(token: &Placed<Token>) -> bool {
        let shape = shape(&token.token);
        shape == "+" || shape == "-"
    }

    fn value(_alloc: Global, token: &Placed<Token>) -> Result<Option<Self::Value>, NoMemory> {
        match &token.token {
            Token::Mark(Mark::Plus) => Ok(Some(Sign::Plus)),
            Token::Mark(Mark::Minus) => Ok(Some(Sign::Minus)),
            _ => Ok(None),
        }
    }

    ghost sample = { (record { token = token.Mark mark.Plus; place = start }, sign.Plus, refl) };

    ghost shaped = { sign-shaped };
}

/// INT | REAL
pub struct NumberToken;

impl Terminal for NumberToken {
    type Value = Number;

    ghost value = { number_of };

    ghost shapes = { number_shapes };

    fn is_shaped(token: &Placed<Token>) -> bool {
        let shape = shape(&token.token);
        shape == "INT" || shape == "REAL"
    }

    fn value(alloc: Global, token: &Placed<Token>) -> Result<Option<Self::Value>, NoMemory> {
        match &token.token {
            Token::Integer(integer) => Ok(Some(Number::Integer(Integer::new(integer.value())))),
            Token::Real(real) => {
                let found = Real::read(alloc, real.rows())?;
                match found {
                    Some(copy) => Ok(Some(Number::Real(copy))),
                    None => Ok(None),
                }
            }
            _ => Ok(None),
        }
    }

    ghost sample = { (record { token = token.Integer 0; place = start }, number.Integer 0, refl) };

    ghost shaped = { number-shaped };
}

/// STRING, or one with a byte that may not stand in it
pub struct TextToken;

impl Terminal for TextToken {
    type Value = PropertyValue;

    ghost value = { text_of };

    ghost shapes = { text_shapes };

    fn is_shaped(token: &Placed<Token>) -> bool {
        let shape = shape(&token.token);
        shape == "STRING" || shape == "SPOILT"
    }

    fn value(alloc: Global, token: &Placed<Token>) -> Result<Option<Self::Value>, NoMemory> {
        match &token.token {
            Token::Text(text) => Ok(Some(PropertyValue::Text(Quoted::of(alloc, text.rows())?))),
            Token::SpoiltText(_) => Ok(Some(PropertyValue::Text(Quoted::of(alloc, b"")?))),
            _ => Ok(None),
        }
    }

    ghost sample = { (record { token = token.Text []; place = start }, value.Text [], refl) };

    ghost shaped = { text-shaped };
}

/// "true" | "false"
pub struct TruthWord;

impl Terminal for TruthWord {
    type Value = bool;

    ghost value = { truth_of };

    ghost shapes = { truth_shapes };

    fn is_shaped(token: &Placed<Token>) -> bool {
        let shape = shape(&token.token);
        shape == "true" || shape == "false"
    }

    fn value(_alloc: Global, token: &Placed<Token>) -> Result<Option<Self::Value>, NoMemory> {
        match &token.token {
            Token::Word(Word::True) => Ok(Some(true)),
            Token::Word(Word::False) => Ok(Some(false)),
            _ => Ok(None),
        }
    }

    ghost sample = { (record { token = token.Word word.True; place = start }, true, refl) };

    ghost shaped = { truth-shaped };
}
