//! How much of a frame the domains need.

ghost use Rattle.std.specs.Prelude.{◌≡◌, ◌<◌};
ghost use Rattle.domain_sched.specs.Slots.{need_of};

use arch_model::Arch;

/// The sum of the upper execution times of all domains, in picoseconds.
pub fn need(arch: &Arch) -> u128
    ensures sum { result ≡ need_of arch.now }
    ensures small { result < 1180591620717411303424 }
{
    let mut need: u128 = 0;
    for pd in arch.pds() {
        need += u128::from(pd.upper);
    }
    need
}
