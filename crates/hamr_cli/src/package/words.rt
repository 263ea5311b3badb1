//! Names in a parsed package.

ghost use Rattle.std.specs.Prelude.{◌≡◌};
ghost use Rattle.std.specs.Option.{option_map};
ghost use Rattle.hamr_cli.specs.Parts.{plain_name, is_word};

use aadl_tree::QualifiedName;
use hw_text::Name;

/// The name, where it is one without `::`.
pub fn plain_name(qualified: &QualifiedName) -> Option<&Name>
    ensures { option_map (λ name. name.now) result ≡ plain_name qualified.now }
{
    match qualified.others.rows().split_first() {
        Some(_) => None,
        None => Some(&qualified.first.name),
    }
}

/// Whether it is this name, without `::`.
pub fn is_word(word: &[u8], qualified: &QualifiedName) -> bool
    ensures { result ≡ is_word word.now qualified.now }
{
    qualified.first.name.rows() == word && qualified.others.is_empty()
}
