//! The shapes of tokens: all that the grammar sees of a token before it reads it.

ghost use Rattle.std.specs.Prelude.{◌≡◌};
ghost use Rattle.gumbo_parse.specs.ShapeSamples.{a_token};
ghost use Rattle.gumbo_parse.specs.Values.{shape_of, same_shape};

use crate::mark::Mark;
use crate::token::Token;
use crate::word::Word;
use hw_reading::Shaped;

/// Which word or mark a token is, or of which kind another one.
#[derive(Clone, Copy, PartialEq, Eq)]
pub enum Shape {
    Name,
    /// The name `base_types`, behind which a base type stands.
    BasePackage,
    Word(Word),
    Reserved,
    Number,
    Text,
    Mark(Mark),
}

/// The shape of a token.
fn shape_of(token: &Token) -> Shape
    ensures { result ≡ shape_of token.now }
{
    match token {
        Token::Name(name) if name.rows() == b"base_types".as_slice() => Shape::BasePackage,
        Token::Name(_) => Shape::Name,
        Token::Word(word) => Shape::Word(*word),
        Token::Reserved => Shape::Reserved,
        Token::Number(_) => Shape::Number,
        Token::Text(_) => Shape::Text,
        Token::Mark(mark) => Shape::Mark(*mark),
    }
}

impl Shaped for Token {
    type Shape = Shape;

    ghost shape = { shape_of };

    ghost same = { same_shape };

    fn has(&self, wanted: Self::Shape) -> bool {
        shape_of(self) == wanted
    }

    ghost sample = { a_token };
}
