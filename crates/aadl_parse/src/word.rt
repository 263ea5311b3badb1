//! Words at the front of a text.

ghost use Rattle.std.specs.Prelude.{◌≡◌, ◌<◌, true, length, IfOk};
ghost use Rattle.hw_text.specs.Name.{is_spelled_as_name};
ghost use Rattle.hw_text.specs.Text.{run_length};
ghost use Rattle.aadl_parse.specs.Fronts.{begins_with_letter};
ghost use Rattle.hw_text.specs.declared.bytes.ByteClass.{ByteClass};
ghost use Rattle.aadl_tree.specs.Tokens.{word_or_name, word_token};
ghost use Rattle.aadl_tree.specs.Words.{word_named};

use aadl_tree::{Token, Word};
use hw_text::{ByteClass, Name, NameFault, NoMemory};
use std::alloc::Global;

/// The word at the front of a text that begins with a letter, and the text behind it.
#[tactic(auto, unfolding(aadl_tree::specs::Tokens::word_token))]
pub fn word_token(alloc: Global, bytes: &[u8]) -> Result<(Token, &[u8]), NoMemory>
    requires { begins_with_letter bytes.now ≡ true }
    ensures exact { IfOk result (λ r. (r.0, r.1.now) ≡ word_token bytes.now) }
    ensures shorter { IfOk result (λ r. length r.1.now < length bytes.now) }
{
    let (word, rest) = bytes.split_at(ByteClass::LettersAndDigits.run_length(bytes));
    Ok((word_or_name(alloc, word)?, rest))
}

/// A word that is spelled as names are: it is reserved or else a name.
fn word_or_name(alloc: Global, word: &[u8]) -> Result<Token, NoMemory>
    requires { is_spelled_as_name word.now ≡ true }
    ensures { IfOk result (λ token. token ≡ word_or_name (word_named word.now) word.now) }
{
    if let Some(word) = Word::named(word) {
        return Ok(Token::Word(word));
    }
    match Name::read(alloc, word) {
        Ok(name) => Ok(Token::Name(name)),
        Err(NameFault::NoMemory) => Err(NoMemory),
        Err(NameFault::BadName) => unreachable!(),
    }
}
