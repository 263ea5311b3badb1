//! Periods that are no multiple of the frame period.

ghost use Rattle.std.specs.Prelude.{◌≡◌, ◌↔◌, ◌⊎◌, IsTrue, Some, None, IfSome, IfNone};
ghost use Rattle.std.specs.List.{slice_get};
ghost use Rattle.hw_text.specs.Places.{IsBefore};
ghost use Rattle.domain_sched.specs.Schedule.{IsUneven, IsFirstUneven, AreEven};

use arch_model::{Arch, Origin, Pd, Role};

/// The origin of the first thread type in the text of which a domain has a period that is no
/// multiple of the frame period.
pub fn first_uneven(arch: &Arch) -> Option<&Origin>
    ensures first { IfSome result (λ origin. IsFirstUneven arch.now origin.now) }
    ensures even { IfNone result (AreEven arch.now) }
{
    let mut first: Option<&Origin> = None;
    for (place, pd) in arch.pds().iter().enumerate() {
        if let Some(origin) = uneven_at(arch, place, pd) {
            first = Some(earlier(first, origin));
        }
    }
    first
}

/// The origin of the domain at a place, where that has such a period.
fn uneven_at<'a>(arch: &'a Arch, place: usize, pd: &Pd) -> Option<&'a Origin>
    ensures some { IfSome result (λ origin. slice_get arch.now.origins place ≡ Some origin.now) }
    ensures uneven { IfSome result (λ origin. IsUneven arch.now.frame pd.now) }
    ensures none { IfNone result (IsUneven arch.now.frame pd.now → slice_get arch.now.origins place ≡ None) }
{
    if is_uneven(arch, pd) {
        return arch.origins().get(place);
    }
    None
}

fn is_uneven(arch: &Arch, pd: &Pd) -> bool
    ensures { IsTrue result ↔ IsUneven arch.now.frame pd.now }
{
    pd.role == Role::Periodic && pd.period % arch.frame() != 0
}

/// The one that stands earlier in the text.
fn earlier<'a>(first: Option<&'a Origin>, origin: &'a Origin) -> &'a Origin
    ensures one { IfSome first.entry (λ other. (result.now ≡ other.now) ⊎ (result.now ≡ origin.now)) }
    ensures alone { IfNone first.entry (result.now ≡ origin.now) }
    ensures before { IfSome first.entry (λ other. IsBefore other.now.at result.now.at → ⊥) }
    ensures own { IsBefore origin.now.at result.now.at → ⊥ }
{
    match first {
        Some(other) if !origin.at.is_before(other.at) => other,
        _ => origin,
    }
}
