//! The types that every model knows.

ghost use Rattle.std.specs.Prelude.{◌≡◌, Some, IfSome};
ghost use Rattle.hw_text.specs.BaseTypes.{base_name, base_named, base_among};

/// A type of the package `Base_Types` (SAE AS5506, base types). The order is that of the first rows
/// of a table of types.
#[derive(Clone, Copy, Debug, PartialEq, Eq)]
pub enum BaseType {
    Boolean,
    Integer8,
    Integer16,
    Integer32,
    Integer64,
    Unsigned8,
    Unsigned16,
    Unsigned32,
    Unsigned64,
}

static BASE_TYPES: [BaseType; 9] = [
    BaseType::Boolean,
    BaseType::Integer8,
    BaseType::Integer16,
    BaseType::Integer32,
    BaseType::Integer64,
    BaseType::Unsigned8,
    BaseType::Unsigned16,
    BaseType::Unsigned32,
    BaseType::Unsigned64,
];

impl BaseType {
    /// The name behind `base_types::`, in lower case.
    #[tactic(auto, unfolding(crate::specs::BaseTypes::base_name))]
    pub fn name(self) -> &'static str
        ensures { result.now ≡ base_name self }
    {
        match self {
            BaseType::Boolean => "boolean",
            BaseType::Integer8 => "integer_8",
            BaseType::Integer16 => "integer_16",
            BaseType::Integer32 => "integer_32",
            BaseType::Integer64 => "integer_64",
            BaseType::Unsigned8 => "unsigned_8",
            BaseType::Unsigned16 => "unsigned_16",
            BaseType::Unsigned32 => "unsigned_32",
            BaseType::Unsigned64 => "unsigned_64",
        }
    }

    /// The type of this name, which is in lower case.
    #[tactic(auto, unfolding(crate::specs::BaseTypes::base_named))]
    pub fn named(name: &[u8]) -> Option<BaseType>
        ensures value { result ≡ base_named name.now }
        ensures own { IfSome result (λ base. name.now ≡ base_name base) }
        ensures all { (base : BaseType) → name.now ≡ base_name base → result ≡ Some base }
    {
        BaseType::among(&BASE_TYPES, name)
    }

    /// The first of these types that has this name.
    fn among(bases: &[BaseType], name: &[u8]) -> Option<BaseType>
        ensures { result ≡ base_among bases.now name.now }
    {
        for &base in bases {
            if name == base.name().as_bytes() {
                return Some(base);
            }
        }
        None
    }
}
