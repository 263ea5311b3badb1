//! Words that a property may be called by or set to.

ghost use Rattle.std.specs.Prelude.{◌≡◌, ℕ, List};
ghost use Rattle.aadl_values.specs.Spellings.{spelled_among};

/// A word that has one spelling in lower case.
pub trait Spelled: Copy {
    ghost spelling_of: { Self → List ℕ };

    fn spelling(self) -> &'static str
        ensures { result.now ≡ spelling_of self };
}

/// The first of these words that the name, which is in lower case, spells.
pub fn spelled_among<W: Spelled>(words: &[W], name: &[u8]) -> Option<W>
    ensures { result ≡ spelled_among W.spelling_of words.now name.now }
{
    for &word in words {
        if name == word.spelling().as_bytes() {
            return Some(word);
        }
    }
    None
}
