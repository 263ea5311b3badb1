//! Words and marks, read from the front of a text.

ghost use Rattle.std.specs.Prelude.{◌≡◌, ◌↔◌, ◌++◌, ◌∷◌, ℕ, List, IsTrue, true, IfSome, IsSomeAnd};
ghost use Rattle.std.specs.List.{prefix_len};
ghost use Rattle.hamr_cli.specs.TraceWord.{ends_word, is_word_byte, IsWord, EndsWord};

/// The byte between two words.
const SPACE: u8 = b' ';

/// Whether a word ends before this byte.
fn ends_a_word(byte: u8) -> bool
    ensures { result ≡ ends_word byte }
{
    matches!(byte, b' ' | b',' | b'[' | b']' | b'\n')
}

/// How many bytes the word in front has.
fn word_length(bytes: &[u8]) -> usize
    ensures { result ≡ prefix_len is_word_byte bytes.now }
{
    for (length, &byte) in bytes.iter().enumerate() {
        if ends_a_word(byte) {
            return length;
        }
    }
    bytes.len()
}

/// The word in front, which may be empty, and what stands behind it.
pub fn split_word(bytes: &[u8]) -> (&[u8], &[u8])
    ensures whole { bytes.now ≡ result.0.now ++ result.1.now }
    ensures word { IsWord result.0.now }
    ensures ended { EndsWord result.1.now }
{
    bytes.split_at(word_length(bytes))
}

/// What stands behind the byte in front, where it is this one.
pub fn behind(bytes: &[u8], mark: u8) -> Option<&[u8]>
    ensures found { IfSome result (λ rest. bytes.now ≡ mark ∷ rest.now) }
    ensures only { (more : List ℕ)
        → bytes.now ≡ mark ∷ more → IsSomeAnd result (λ rest. rest.now ≡ more) }
{
    match bytes.split_first() {
        Some((&first, rest)) if first == mark => Some(rest),
        _ => None,
    }
}

/// The word in front and what stands behind the one space that follows it.
pub fn field(bytes: &[u8]) -> Option<(&[u8], &[u8])>
    ensures found { IfSome result (λ r. bytes.now ≡ r.0.now ++ 32 ∷ r.1.now) }
    ensures only { (word more : List ℕ) → IsWord word → bytes.now ≡ word ++ 32 ∷ more
        → IsSomeAnd result (λ r. (r.0.now ≡ word) × (r.1.now ≡ more)) }
{
    let (word, after) = split_word(bytes);
    let rest = behind(after, SPACE)?;
    Some((word, rest))
}
