//! The words of a command line.

ghost use Rattle.std.specs.Prelude.{◌≡◌, ◌↔◌, [], ◌∷◌, IsTrue, IfSome, IfNone};
ghost use Rattle.hamr_cli.specs.Command.{IsRow, IsNoRow};
ghost use Rattle.hamr_cli.specs.Asked.{asked};

use hw_text::ByteList;
use std::str;

/// What the words ask for, with the words behind the command's name.
#[derive(Clone, Copy, Debug)]
pub enum Command<'a> {
    /// Whether a recorded trace is a run of the model's services.
    Judge { model: &'a str, trace: &'a str },
    /// The model's canonical text.
    Tidy { model: &'a str },
}

impl<'a> Command<'a> {
    /// The command whose row the words are. Words are compared byte by byte.
    pub fn read(words: &'a [ByteList]) -> Option<Self>
        ensures row { IfSome result (λ command. IsRow words.now (asked command)) }
        ensures none { IfNone result (IsNoRow words.now) }
    {
        match words {
            [name, model] => tidy(name, model),
            [name, model, trace] => judge(name, model, trace),
            _ => None,
        }
    }
}

/// `judge MODEL TRACE`, where the words are that.
fn judge<'a>(name: &ByteList, model: &'a ByteList, trace: &'a ByteList) -> Option<Command<'a>>
    ensures row { IfSome result (λ command. IsRow (name.now ∷ model.now ∷ trace.now ∷ []) (asked command)) }
    ensures none { IfNone result (IsNoRow (name.now ∷ model.now ∷ trace.now ∷ [])) }
{
    if !is_word(name, "judge") {
        return None;
    }
    let Ok(model) = str::from_utf8(model.rows()) else {
        return None;
    };
    let Ok(trace) = str::from_utf8(trace.rows()) else {
        return None;
    };
    Some(Command::Judge { model, trace })
}

/// `tidy MODEL`, where the words are that.
fn tidy<'a>(name: &ByteList, model: &'a ByteList) -> Option<Command<'a>>
    ensures row { IfSome result (λ command. IsRow (name.now ∷ model.now ∷ []) (asked command)) }
    ensures none { IfNone result (IsNoRow (name.now ∷ model.now ∷ [])) }
{
    if !is_word(name, "tidy") {
        return None;
    }
    let Ok(model) = str::from_utf8(model.rows()) else {
        return None;
    };
    Some(Command::Tidy { model })
}

/// Whether the word is this one, byte by byte.
fn is_word(word: &ByteList, name: &str) -> bool
    ensures { IsTrue result ↔ (word.now ≡ name.now) }
{
    word.rows() == name.as_bytes()
}
