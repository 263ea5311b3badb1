//! The associations that decide how data is built.

ghost use Rattle.std.specs.Prelude.{◌≡◌, option_copied};
ghost use Rattle.aadl_names.specs.Meanings.{first_there};
ghost use Rattle.aadl_types.specs.Shaping.{last_of, deciding_among, deciding_first};

use aadl_names::{Held, own_last};
use aadl_tree::Association;
use aadl_values::{Property, Spelled};

/// The associations of Enumerators, Base_Type and Dimension that count for a data declaration.
#[derive(Drop)]
pub struct Deciding<'a> {
    pub enumerators: Option<Held<'a, Association>>,
    pub base_type: Option<Held<'a, Association>>,
    pub dimension: Option<Held<'a, Association>>,
}

impl<'a> Deciding<'a> {
    /// Those among the associations that stand at one declaration.
    pub fn among(associations: &'a [Association]) -> Self
        ensures { result ≡ deciding_among associations.now }
    {
        Deciding {
            enumerators: last_of(Property::Enumerators, associations),
            base_type: last_of(Property::BaseType, associations),
            dimension: last_of(Property::Dimension, associations),
        }
    }

    /// These, and the other ones where there are none.
    pub fn or(self, other: Self) -> Self
        ensures { result ≡ deciding_first self.entry other.entry }
    {
        Deciding {
            enumerators: either(self.enumerators, other.enumerators),
            base_type: either(self.base_type, other.base_type),
            dimension: either(self.dimension, other.dimension),
        }
    }
}

/// The last of a property that has no `applies to`.
fn last_of<'a>(property: Property, associations: &'a [Association]) -> Option<Held<'a, Association>>
    ensures { result ≡ last_of property associations.now }
{
    match own_last(property.spelling().as_bytes(), associations) {
        Some(found) => Some(Held::new(found)),
        None => None,
    }
}

fn either<'a>(
    first: Option<Held<'a, Association>>,
    other: Option<Held<'a, Association>>,
) -> Option<Held<'a, Association>>
    ensures { result ≡ first_there first.entry other.entry }
{
    match first {
        Some(found) => Some(found),
        None => other,
    }
}
