//! The last association of a property in a list.

ghost use Rattle.std.specs.Prelude.{◌≡◌, option_copied};
ghost use Rattle.std.specs.Cmp.Lexicographic.{pointwise};
ghost use Rattle.std.specs.Str.{bytes_eq};
ghost use Rattle.aadl_names.specs.Meanings.{first_there};
ghost use Rattle.aadl_names.specs.Counting.{is_of_property, is_path, leads_to, stands_alone, is_led, if_that, own_last, led_last, braces_of, braces_last};

use crate::held::Held;
use crate::part::Part;
use aadl_tree::{Association, Path, Subcomponent};
use hw_text::Name;

/// The last without `applies to`.
#[tactic(auto, using(crate::proofs::LastThat::last_step))]
pub fn own_last<'a>(property: &[u8], all: &'a [Association]) -> Option<&'a Association>
    ensures { option_copied result ≡ own_last property.now all.now }
{
    let mut last = None;
    for association in all {
        last = either(own(property, association), last);
    }
    last
}

fn own<'a>(property: &[u8], association: &'a Association) -> Option<&'a Association>
    ensures { option_copied result ≡ if_that (stands_alone property.now association.now) association.now }
{
    if is_of_property(property, association) && association.applies_to.rows().is_empty() {
        Some(association)
    } else {
        None
    }
}

/// The last that applies to these names.
#[tactic(auto, using(crate::proofs::LastThat::last_step))]
pub fn led_last<'a>(
    property: &[u8],
    names: &[Held<'_, Name>],
    all: &'a [Association],
) -> Option<&'a Association>
    ensures { option_copied result ≡ led_last property.now names.now all.now }
{
    let mut last = None;
    for association in all {
        last = either(led(property, names, association), last);
    }
    last
}

fn led<'a>(
    property: &[u8],
    names: &[Held<'_, Name>],
    association: &'a Association,
) -> Option<&'a Association>
    ensures { option_copied result ≡ if_that (is_led property.now names.now association.now) association.now }
{
    if is_of_property(property, association) && leads_to(names, association) {
        Some(association)
    } else {
        None
    }
}

/// The last in the braces of subcomponents of the name that applies to these names.
#[tactic(auto, using(crate::proofs::LastThat::last_later))]
pub fn braces_last<'a>(
    property: &[u8],
    name: &Name,
    names: &[Held<'_, Name>],
    all: &'a [Subcomponent],
) -> Option<&'a Association>
    ensures { option_copied result ≡ braces_last property.now name.now names.now all.now }
{
    let mut last = None;
    for subcomponent in all {
        last = either(in_braces(property, name, names, subcomponent), last);
    }
    last
}

fn in_braces<'a>(
    property: &[u8],
    name: &Name,
    names: &[Held<'_, Name>],
    subcomponent: &'a Subcomponent,
) -> Option<&'a Association>
    ensures { option_copied result ≡ braces_of property.now name.now names.now subcomponent.now }
{
    if subcomponent.name.name.rows() == name.rows() {
        led_last(property, names, subcomponent.own())
    } else {
        None
    }
}

/// The first, where it is there, else the other.
pub fn either<'a>(
    first: Option<&'a Association>,
    other: Option<&'a Association>,
) -> Option<&'a Association>
    ensures { option_copied result ≡ first_there (option_copied first.entry) (option_copied other.entry) }
{
    match first {
        Some(found) => Some(found),
        None => other,
    }
}

fn is_of_property(property: &[u8], association: &Association) -> bool
    ensures { result ≡ is_of_property property.now association.now }
{
    association.property.last().rows() == property
}

/// Whether the association applies to these names.
fn leads_to(names: &[Held<'_, Name>], association: &Association) -> bool
    ensures { result ≡ leads_to names.now association.now }
{
    for path in association.applies_to.rows() {
        if is_path(names, path) {
            return true;
        }
    }
    false
}

fn is_path(names: &[Held<'_, Name>], path: &Path) -> bool
    ensures { result ≡ is_path names.now path.now }
{
    let Some((first, others)) = names.split_first() else {
        return false;
    };
    path.first.name.rows() == first.get().rows() && are_names(path.others.rows(), others)
}

#[tactic(auto, using(crate::proofs::LastThat::other_lengths))]
fn are_names(names: &[Name], others: &[Held<'_, Name>]) -> bool
    ensures { result ≡ pointwise bytes_eq names.now others.now }
{
    if names.len() != others.len() {
        return false;
    }
    for (place, name) in names.iter().enumerate() {
        if name.rows() != others[place].get().rows() {
            return false;
        }
    }
    true
}
