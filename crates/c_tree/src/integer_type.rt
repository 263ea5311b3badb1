//! The integer types of C.

ghost use Rattle.std.specs.Prelude.{◌≡◌};
ghost use Rattle.hw_types.specs.Value.{least_of};
ghost use Rattle.c_tree.specs.Types.{integer_text, is_signed, bits, scalar_of, largest};

use hw_types::Scalar;

/// An integer type, by its sign and width.
#[derive(Clone, Copy, Debug, PartialEq, Eq)]
pub enum IntegerType {
    I8,
    I16,
    I32,
    I64,
    U8,
    U16,
    U32,
    U64,
}

impl IntegerType {
    pub fn spelling(self) -> &'static str
        ensures { result.now ≡ integer_text self }
    {
        match self {
            IntegerType::I8 => "int8_t",
            IntegerType::I16 => "int16_t",
            IntegerType::I32 => "int32_t",
            IntegerType::I64 => "int64_t",
            IntegerType::U8 => "uint8_t",
            IntegerType::U16 => "uint16_t",
            IntegerType::U32 => "uint32_t",
            IntegerType::U64 => "uint64_t",
        }
    }

    pub fn is_signed(self) -> bool
        ensures { result ≡ is_signed self }
    {
        matches!(
            self,
            IntegerType::I8 | IntegerType::I16 | IntegerType::I32 | IntegerType::I64
        )
    }

    /// How many bits its values have.
    pub fn bits(self) -> u32
        ensures { result ≡ bits self }
    {
        match self {
            IntegerType::I8 | IntegerType::U8 => 8,
            IntegerType::I16 | IntegerType::U16 => 16,
            IntegerType::I32 | IntegerType::U32 => 32,
            IntegerType::I64 | IntegerType::U64 => 64,
        }
    }

    /// How its values lie in memory.
    pub fn scalar(self) -> Scalar
        ensures { result ≡ scalar_of self }
    {
        match self {
            IntegerType::I8 => Scalar::I8,
            IntegerType::I16 => Scalar::I16,
            IntegerType::I32 => Scalar::I32,
            IntegerType::I64 => Scalar::I64,
            IntegerType::U8 => Scalar::U8,
            IntegerType::U16 => Scalar::U16,
            IntegerType::U32 => Scalar::U32,
            IntegerType::U64 => Scalar::U64,
        }
    }

    /// Its least value.
    pub fn least(self) -> i128
        ensures { result ≡ least_of (scalar_of self) }
    {
        match self {
            IntegerType::I8 => -(1 << 7),
            IntegerType::I16 => -(1 << 15),
            IntegerType::I32 => -(1 << 31),
            IntegerType::I64 => -(1 << 63),
            IntegerType::U8 | IntegerType::U16 | IntegerType::U32 | IntegerType::U64 => 0,
        }
    }

    /// Its largest value.
    pub fn largest(self) -> u64
        ensures { result ≡ largest self }
    {
        match self {
            IntegerType::I8 => 127,
            IntegerType::I16 => 32_767,
            IntegerType::I32 => 2_147_483_647,
            IntegerType::I64 => 9_223_372_036_854_775_807,
            IntegerType::U8 => 255,
            IntegerType::U16 => 65_535,
            IntegerType::U32 => 4_294_967_295,
            IntegerType::U64 => 18_446_744_073_709_551_615,
        }
    }
}
