//! The shapes of tokens.

ghost use Rattle.std.specs.Prelude.{◌≡◌};
ghost use Rattle.aadl_parse.specs.Shapes.{shape};

use aadl_tree::Token;

/// What the grammar shows of a token.
pub fn shape(token: &Token) -> &'static str
    ensures { result.now ≡ shape token.now }
{
    match token {
        Token::Name(name) if name.rows() == b"base_types".as_slice() => "base_types",
        Token::Name(_) => "NAME",
        Token::Word(word) => word.spelling(),
        Token::Integer(_) => "INT",
        Token::Real(_) => "REAL",
        Token::Text(_) => "STRING",
        Token::SpoiltText(_) => "SPOILT",
        Token::Annex(_) => "ANNEX",
        Token::Mark(mark) => mark.spelling(),
    }
}
