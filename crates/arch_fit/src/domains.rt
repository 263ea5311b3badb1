//! Which domains fit one another.

ghost use Rattle.std.specs.Prelude.{◌≡◌, ◌≢◌, All, AllPairs, IsTrue};
ghost use Rattle.arch_model.specs.Arch.{IsDomain};
ghost use Rattle.arch_model.specs.declared.pd.Pd.{Pd as PdValue};

use arch_model::{Pd, Role};

/// Whether each of these domains is one.
pub fn are_domains(pds: &[Pd]) -> bool
    ensures { IsTrue result → All IsDomain pds.now }
{
    match pds {
        [pd, rest @ ..] => is_domain(pd) && are_domains(rest),
        [] => true,
    }
}

/// Whether a thread has a name of its own, and a periodic one a period.
fn is_domain(pd: &Pd) -> bool
    ensures { IsTrue result → IsDomain pd.now }
{
    match pd.role {
        Role::Device => true,
        Role::Periodic => pd.period > 0 && pd.name.rows() != b"types".as_slice(),
        Role::Sporadic => pd.name.rows() != b"types".as_slice(),
    }
}

/// Whether no two of these domains have one name.
pub fn have_own_names(pds: &[Pd]) -> bool
    ensures { IsTrue result → AllPairs (λ (pd : PdValue) (other : PdValue). pd.name ≢ other.name) pds.now }
{
    match pds {
        [pd, rest @ ..] => has_own_name(pd, rest) && have_own_names(rest),
        [] => true,
    }
}

fn has_own_name(pd: &Pd, others: &[Pd]) -> bool
    ensures { IsTrue result → All (λ (other : PdValue). pd.now.name ≢ other.name) others.now }
{
    match others {
        [other, rest @ ..] => are_apart(pd, other) && has_own_name(pd, rest),
        [] => true,
    }
}

fn are_apart(pd: &Pd, other: &Pd) -> bool
    ensures { IsTrue result → pd.now.name ≢ other.now.name }
{
    pd.name.rows() != other.name.rows()
}
