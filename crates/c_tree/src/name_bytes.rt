//! The bytes that names are made of.

ghost use Rattle.std.specs.Prelude.{◌≡◌};
ghost use Rattle.std.specs.List.{list_all};
ghost use Rattle.c_tree.specs.Names.{begins_name, continues_name, is_spelled_as_name, is_identifier};

use crate::word::is_word;
use hw_text::{is_digit, is_letter};

/// Whether the bytes are a name and no word of C.
#[tactic(auto, unfolding(crate::specs::Names::is_identifier))]
pub fn is_identifier(bytes: &[u8]) -> bool
    ensures { result ≡ is_identifier bytes.now }
{
    is_spelled(bytes) && !is_word(bytes)
}

/// Whether a name may begin with the byte.
pub fn begins_name(byte: u8) -> bool
    ensures { result ≡ begins_name byte }
{
    is_letter(byte) || byte == b'_'
}

/// Whether the byte may stand in a name.
pub fn continues_name(byte: u8) -> bool
    ensures { result ≡ continues_name byte }
{
    is_letter(byte) || is_digit(byte) || byte == b'_'
}

/// Whether the bytes are spelled as a name, be it a word or not.
fn is_spelled(bytes: &[u8]) -> bool
    ensures { result ≡ is_spelled_as_name bytes.now }
{
    match bytes.split_first() {
        Some((&first, rest)) => begins_name(first) && all_continue(rest),
        None => false,
    }
}

fn all_continue(bytes: &[u8]) -> bool
    ensures { result ≡ list_all continues_name bytes.now }
{
    for &byte in bytes {
        if !continues_name(byte) {
            return false;
        }
    }
    true
}
