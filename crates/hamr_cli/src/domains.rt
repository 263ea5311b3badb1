//! Domains by their names.

ghost use Rattle.std.specs.Prelude.{◌≡◌, ◌≤◌, true, OnSome, length};
ghost use Rattle.arch_model.specs.LookUp.{pd_named};
ghost use Rattle.hw_text.specs.Name.{is_name};

use arch_model::{Pd, PdId};

/// The first domain of this name.
pub fn domain_named(pds: &[Pd], name: &[u8]) -> Option<PdId>
    requires { length pds.now ≤ 60 }
    ensures place { result ≡ pd_named pds.now name.now }
    ensures name { OnSome result (is_name name.now ≡ true) }
{
    let mut place = 0;
    for pd in pds {
        if pd.name.rows() == name {
            return Some(PdId(place));
        }
        place += 1;
    }
    None
}
