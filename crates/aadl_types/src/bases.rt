//! The scalars that base types are.

ghost use Rattle.std.specs.Prelude.{◌≡◌};
ghost use Rattle.aadl_types.specs.Types.{scalar_of};

use hw_text::BaseType;
use hw_types::Scalar;

/// The scalar that a base type is.
pub fn scalar_of(base: BaseType) -> Scalar
    ensures { result ≡ scalar_of base }
{
    match base {
        BaseType::Boolean => Scalar::Flag,
        BaseType::Integer8 => Scalar::I8,
        BaseType::Integer16 => Scalar::I16,
        BaseType::Integer32 => Scalar::I32,
        BaseType::Integer64 => Scalar::I64,
        BaseType::Unsigned8 => Scalar::U8,
        BaseType::Unsigned16 => Scalar::U16,
        BaseType::Unsigned32 => Scalar::U32,
        BaseType::Unsigned64 => Scalar::U64,
    }
}
