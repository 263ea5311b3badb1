//! Whether the timing of a thread may be set from outside.

ghost use Rattle.std.specs.Prelude.{◌≡◌};
ghost use Rattle.std.specs.List.{list_any};
ghost use Rattle.aadl_timing.specs.Bounds.{is_led_timing, leads_in_braces, leads_inside, leads_anywhere};

use aadl_names::{Part, Tables};
use aadl_tree::{Association, Implementation, Subcomponent};
use aadl_values::{Property, Spelled};

/// Whether some implementation sets the timing of other components.
pub fn leads_anywhere(tables: &Tables<'_>) -> bool
    ensures { result ≡ leads_anywhere tables.now }
{
    for implementation in tables.implementations.rows() {
        if leads_inside(implementation.get()) {
            return true;
        }
    }
    false
}

fn leads_inside(implementation: &Implementation) -> bool
    ensures { result ≡ leads_inside implementation.now }
{
    leads_among(implementation.properties.rows())
        || leads_in_braces(implementation.subcomponents.rows())
}

fn leads_in_braces(subcomponents: &[Subcomponent]) -> bool
    ensures { result ≡ list_any leads_in_braces subcomponents.now }
{
    for subcomponent in subcomponents {
        if leads_among(subcomponent.own()) {
            return true;
        }
    }
    false
}

fn leads_among(associations: &[Association]) -> bool
    ensures { result ≡ list_any is_led_timing associations.now }
{
    for association in associations {
        if is_led_timing(association) {
            return true;
        }
    }
    false
}

fn is_led_timing(association: &Association) -> bool
    ensures { result ≡ is_led_timing association.now }
{
    let name = association.property.last().rows();
    !association.applies_to.rows().is_empty()
        && (name == Property::DispatchProtocol.spelling().as_bytes()
            || name == Property::Period.spelling().as_bytes())
}
