//! Bytes that stand nowhere but in comments and annex texts.

ghost use Rattle.std.specs.Prelude.{◌≡◌};
ghost use Rattle.aadl_tree.specs.Text.{is_bad_byte};

use hw_text::is_white;

/// Whether the byte may not stand outside comments and annex texts.
pub fn is_bad_byte(byte: u8) -> bool
    ensures { result ≡ is_bad_byte byte }
{
    byte >= 127 || (byte < b' ' && !is_white(byte))
}
