//! Why a type has no layout.

use hw_text::NoMemory;
use thiserror::Error;

/// Why `layout_of` gave nothing.
#[derive(Clone, Copy, Debug, PartialEq, Eq, Error)]
pub enum TypeFault {
    /// There are so many scalars, or more where the number is the greatest that it can be.
    #[error("too many scalars")]
    TooWide(u64),
    #[error("out of memory")]
    NoMemory,
}

impl From<NoMemory> for TypeFault {
    ghost use Rattle.std.specs.Prelude.{◌≡◌};
    ghost use Rattle.hw_types.specs.declared.fault.TypeFault.TheVariants.{NoMemory as fault_no_memory};

    ghost from_gives = { λ _ fault. fault ≡ fault_no_memory };

    fn from(_: NoMemory) -> Self {
        TypeFault::NoMemory
    }
}
