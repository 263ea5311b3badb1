//! The names with which a type of the model's own may begin.

ghost use Rattle.std.specs.Prelude.{◌≡◌, false};
ghost use Rattle.aadl_tree.specs.Classes.{is_base_package};

use hw_text::Name;

/// A name other than `base_types`, behind which only a base type may stand in a classifier.
#[derive(Debug, Drop)]
pub struct ClassName {
    pub name: Name,
    pub ghost other: { is_base_package name ≡ false },
}

#[tactic(auto, using(crate::proofs::OwnNames::no_own_name, crate::proofs::OwnNames::own_name_of))]
impl ClassName {
    ghost use Rattle.aadl_tree.specs.ClassNames.{own_name};

    /// The same name, where it is another than `base_types`.
    pub fn of(name: Name) -> Option<ClassName>
        ensures { result ≡ own_name name }
    {
        if name.rows() == b"base_types".as_slice() {
            None
        } else {
            Some(ClassName { name })
        }
    }
}
