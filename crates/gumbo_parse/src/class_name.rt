//! The names with which a type of the model's own may begin.

ghost use Rattle.std.specs.Prelude.{◌≡◌, false};
ghost use Rattle.gumbo_parse.specs.Values.{is_base_package};

use crate::identifier::Identifier;
use hw_text::Place;

/// A name other than `base_types`, behind which only a base type may stand, and where it stands.
#[derive(Drop)]
pub struct ClassName {
    pub name: Identifier,
    pub place: Place,
    pub ghost other: { is_base_package name ≡ false },
}

#[tactic(auto, using(crate::proofs::OtherNames::no_other_name, crate::proofs::OtherNames::other_name_of))]
impl ClassName {
    ghost use Rattle.gumbo_parse.specs.ClassNames.{other_name};

    /// The same name, where it is another than `base_types`.
    pub fn of(name: Identifier, place: Place) -> Option<ClassName>
        ensures { result ≡ other_name name place }
    {
        if name.rows() == b"base_types".as_slice() {
            None
        } else {
            Some(ClassName { name, place })
        }
    }
}
