//! The tokens that are words with a meaning of their own, and annex texts.

ghost use Rattle.std.specs.Prelude.{◌≡◌, [], ◌∷◌, codes, refl, Some};
ghost use Rattle.std.specs.List.{list_any};
ghost use Rattle.std.specs.Str.{bytes_eq};
ghost use Rattle.aadl_tree.specs.declared.token.Token.TheVariants as token;
ghost use Rattle.aadl_tree.specs.declared.word.Word.TheVariants as word;
ghost use Rattle.aadl_tree.specs.declared.category.Category.TheVariants as category;
ghost use Rattle.aadl_tree.specs.declared.feature.Direction.TheVariants as direction;
ghost use Rattle.aadl_parse.specs.Stops.{start};
ghost use Rattle.aadl_parse.specs.Terminals.{category_shapes, category_of, direction_of, annex_body_of, category-shaped, direction-shaped, annex_body-shaped, word_category, word_direction};

use crate::leaf::Terminal;
use crate::shape::shape;
use aadl_tree::{AnnexText, Category, Direction, Token, Word};
use hw_text::{NoMemory, Place, Placed};
use std::alloc::Global;

/// A category.
pub struct CategoryWord;

impl Terminal for CategoryWord {
    type Value = Category;

    ghost value = { category_of };

    ghost shapes = { category_shapes };

    fn is_shaped(token: &Placed<Token>) -> bool {
        is_category(shape(&token.token))
    }

    fn value(_alloc: Global, token: &Placed<Token>) -> Result<Option<Self::Value>, NoMemory> {
        match &token.token {
            Token::Word(word) => Ok(word_category(*word)),
            _ => Ok(None),
        }
    }

    ghost sample = { (record { token = token.Word word.Data; place = start }, category.Data, refl) };

    ghost shaped = { category-shaped };
}

/// `in` or `out`.
pub struct DirectionWord;

impl Terminal for DirectionWord {
    type Value = Direction;

    ghost value = { direction_of };

    ghost shapes = { codes "in" ∷ codes "out" ∷ [] };

    fn is_shaped(token: &Placed<Token>) -> bool {
        let shape = shape(&token.token);
        shape == "in" || shape == "out"
    }

    fn value(_alloc: Global, token: &Placed<Token>) -> Result<Option<Self::Value>, NoMemory> {
        match &token.token {
            Token::Word(word) => Ok(word_direction(*word)),
            _ => Ok(None),
        }
    }

    ghost sample = { (record { token = token.Word word.In; place = start }, direction.In, refl) };

    ghost shaped = { direction-shaped };
}

/// An annex text, or `none`, and where it stands.
pub struct AnnexBody;

impl Terminal for AnnexBody {
    type Value = (Option<AnnexText>, Place);

    ghost value = { annex_body_of };

    ghost shapes = { codes "ANNEX" ∷ codes "none" ∷ [] };

    fn is_shaped(token: &Placed<Token>) -> bool {
        let shape = shape(&token.token);
        shape == "ANNEX" || shape == "none"
    }

    fn value(alloc: Global, token: &Placed<Token>) -> Result<Option<Self::Value>, NoMemory> {
        match &token.token {
            Token::Annex(text) => {
                let text = AnnexText::of(alloc, text.rows())?;
                Ok(Some((Some(text), token.place)))
            }
            Token::Word(Word::None) => Ok(Some((None, token.place))),
            _ => Ok(None),
        }
    }

    ghost sample = { (record { token = token.Annex []; place = start }, (Some [], start), refl) };

    ghost shaped = { annex_body-shaped };
}

fn is_category(shape: &str) -> bool
    ensures { result ≡ list_any (bytes_eq shape.now) category_shapes }
{
    shape == "data"
        || shape == "thread"
        || shape == "process"
        || shape == "system"
        || shape == "device"
        || shape == "processor"
}

fn word_category(word: Word) -> Option<Category>
    ensures { result ≡ word_category word }
{
    match word {
        Word::Data => Some(Category::Data),
        Word::Thread => Some(Category::Thread),
        Word::Process => Some(Category::Process),
        Word::System => Some(Category::System),
        Word::Device => Some(Category::Device),
        Word::Processor => Some(Category::Processor),
        _ => None,
    }
}

fn word_direction(word: Word) -> Option<Direction>
    ensures { result ≡ word_direction word }
{
    match word {
        Word::In => Some(Direction::In),
        Word::Out => Some(Direction::Out),
        _ => None,
    }
}
