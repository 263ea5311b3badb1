//! Texts in quotes at the front of a text.

ghost use Rattle.std.specs.Prelude.{◌≡◌, ◌≤◌, length, IfOk, IfSome};
ghost use Rattle.std.specs.Option.{option_map};
ghost use Rattle.hw_text.specs.Text.{text_length};
ghost use Rattle.aadl_tree.specs.Text.{is_quotable, quotable_length};
ghost use Rattle.aadl_tree.specs.Tokens.{quoted_token, text_token};

use crate::byte::is_bad_byte;
use aadl_tree::{Quoted, Token};
use hw_text::{NoMemory, behind_byte, text_length};
use std::alloc::Global;

/// The text in quotes whose first quote stands before these bytes, and what stands behind it.
#[tactic(auto, unfolding(aadl_tree::specs::Tokens::text_token))]
pub fn text_token(alloc: Global, bytes: &[u8]) -> Result<Option<(Token, &[u8])>, NoMemory>
    ensures exact { IfOk result (λ found. option_map (λ r. (r.0, r.1.now)) found ≡ text_token bytes.now) }
    ensures within { IfOk result (λ found. IfSome found (λ r. length r.1.now ≤ length bytes.now)) }
{
    let (text, rest) = bytes.split_at(text_length(bytes));
    let Some(after) = behind_byte(rest, b'"') else {
        return Ok(None);
    };
    Ok(Some((quoted_token(alloc, text)?, after)))
}

/// The text of these bytes, spoilt where a byte that may not stand between quotes is among them.
fn quoted_token(alloc: Global, bytes: &[u8]) -> Result<Token, NoMemory>
    ensures { IfOk result (λ token. token ≡ quoted_token bytes.now) }
{
    let plain = quotable_length(bytes);
    if plain != bytes.len() {
        return Ok(Token::SpoiltText(plain));
    }
    Ok(Token::Text(Quoted::of(alloc, bytes)?))
}

/// How many bytes stand before the first that may not stand between quotes, or before the end.
fn quotable_length(bytes: &[u8]) -> usize
    ensures { result ≡ quotable_length bytes.now }
{
    let mut count = 0;
    for &byte in bytes {
        if !is_quotable(byte) {
            return count;
        }
        count += 1;
    }
    count
}

fn is_quotable(byte: u8) -> bool
    ensures { result ≡ is_quotable byte }
{
    !is_bad_byte(byte) && byte != b'"' && byte != b'\n'
}
