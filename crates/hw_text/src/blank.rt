//! White space, and the comments of models and contracts.

ghost use Rattle.std.specs.Prelude.{◌≡◌, ◌≤◌, false, length};
ghost use Rattle.hw_text.specs.Text.{is_white, skipped_from, skipped};

use crate::bytes::{begins_with, front};

/// The text from the first byte on that is neither white space nor in a comment.
pub fn skipped(bytes: &[u8]) -> &[u8]
    ensures rest { result.now ≡ skipped bytes.now }
    ensures within { length result.now ≤ length bytes.now }
{
    let mut in_comment = false;
    let mut rest = bytes;
    while let Some((first, after)) = front(rest) {
        if in_comment {
            in_comment = first != b'\n';
        } else if first == b'-' && begins_with(after, b'-') {
            in_comment = true;
        } else if !is_white(first) {
            return rest;
        }
        rest = after;
    }
    rest
}

/// Whether the byte is space, TAB, LF or CR.
pub fn is_white(byte: u8) -> bool
    ensures { result ≡ is_white byte }
{
    byte == b' ' || byte == b'\t' || byte == b'\n' || byte == b'\r'
}
