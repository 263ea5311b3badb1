//! The marks that set properties.

ghost use Rattle.std.specs.Prelude.{[], ◌∷◌, codes, refl, Some};
ghost use Rattle.aadl_tree.specs.declared.token.Token.TheVariants as token;
ghost use Rattle.aadl_tree.specs.declared.mark.Mark.TheVariants as mark;
ghost use Rattle.aadl_tree.specs.declared.association.Operator.TheVariants.{Set};
ghost use Rattle.aadl_parse.specs.Stops.{start};
ghost use Rattle.aadl_parse.specs.Terminals.{operator_of, operator-shaped};

use crate::leaf::Terminal;
use crate::shape::shape;
use aadl_tree::{Mark, Operator, Token};
use hw_text::{NoMemory, Placed};
use std::alloc::Global;

/// "=>" | "+=>"
pub struct OperatorMark;

impl Terminal for OperatorMark {
    type Value = Operator;

    ghost value = { operator_of };

    ghost shapes = { codes "=>" ∷ codes "+=>" ∷ [] };

    fn is_shaped(token: &Placed<Token>) -> bool {
        let shape = shape(&token.token);
        shape == "=>" || shape == "+=>"
    }

    fn value(_alloc: Global, token: &Placed<Token>) -> Result<Option<Self::Value>, NoMemory> {
        match &token.token {
            Token::Mark(Mark::Association) => Ok(Some(Operator::Set)),
            Token::Mark(Mark::Addition) => Ok(Some(Operator::Append)),
            _ => Ok(None),
        }
    }

    ghost sample = { (record { token = token.Mark mark.Association; place = start }, Set, refl) };

    ghost shaped = { operator-shaped };
}
