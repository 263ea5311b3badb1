//! How many scalars a type has.

ghost use Rattle.std.specs.Prelude.{◌≡◌};
ghost use Rattle.hw_types.specs.Count.{told_count};

use crate::Ty;

/// The number of scalars, or the greatest number where there are more.
pub fn count_scalars(ty: &Ty) -> u64
    ensures { result ≡ told_count ty.now }
{
    match ty {
        Ty::One(_) => 1,
        Ty::Fields(fields) => {
            let mut count = 0u64;
            for field in fields.rows() {
                count = count.saturating_add(count_scalars(field));
            }
            count
        }
        Ty::Times(element, times) => {
            u64::from(*times).saturating_mul(count_scalars(element.get()))
        }
        Ty::Nothing => 0,
    }
}
