//! Annex texts at the front of a text.

ghost use Rattle.std.specs.Prelude.{◌≡◌, ◌≤◌, length, IfOk, IfSome};
ghost use Rattle.std.specs.Option.{option_map};
ghost use Rattle.aadl_tree.specs.Text.{annex_length};
ghost use Rattle.aadl_tree.specs.Tokens.{annex_token};

use aadl_tree::{AnnexText, Token};
use hw_text::{NoMemory, behind_bytes, front};
use std::alloc::Global;

/// What ends an annex text.
const ANNEX_END: &[u8] = b"**}";

/// The annex text whose `{**` stands before these bytes, and what stands behind it.
#[tactic(auto, unfolding(aadl_tree::specs::Tokens::annex_token))]
pub fn annex_token(alloc: Global, bytes: &[u8]) -> Result<Option<(Token, &[u8])>, NoMemory>
    ensures exact { IfOk result (λ found. option_map (λ r. (r.0, r.1.now)) found ≡ annex_token bytes.now) }
    ensures within { IfOk result (λ found. IfSome found (λ r. length r.1.now ≤ length bytes.now)) }
{
    let (text, rest) = bytes.split_at(annex_length(bytes));
    let Some(after) = behind_bytes(rest, ANNEX_END) else {
        return Ok(None);
    };
    let text = AnnexText::of(alloc, text)?;
    Ok(Some((Token::Annex(text), after)))
}

/// How many bytes stand before the first `**}`, or the end.
fn annex_length(bytes: &[u8]) -> usize
    ensures within { result ≤ length bytes.now }
    ensures exact { result ≡ annex_length bytes.now }
{
    let mut count = 0;
    let mut rest = bytes;
    while let Some((_, after)) = front(rest) {
        if behind_bytes(rest, ANNEX_END).is_some() {
            return count;
        }
        count += 1;
        rest = after;
    }
    count
}
