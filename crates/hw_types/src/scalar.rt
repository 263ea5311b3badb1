//! Scalars, the parts of which every value consists.

ghost use Rattle.std.specs.Prelude.{◌≡◌, ◌↔◌, ◌^◌, IsTrue, nat_lt, if◌then◌else◌, pos};
ghost use Rattle.hw_types.specs.Scalar.{width_of};
ghost use Rattle.hw_types.specs.Value.{IsScalarValue, least_of, limit_of, meaning_of, code_of, signed_of};

/// A type without parts.
#[derive(Clone, Copy, Debug, PartialEq, Eq)]
pub enum Scalar {
    /// The unsigned integers of 1, 2, 4 and 8 bytes.
    U8,
    U16,
    U32,
    U64,
    /// The signed integers of 1, 2, 4 and 8 bytes.
    I8,
    I16,
    I32,
    I64,
    /// A truth value of one byte, 0 or 1.
    Flag,
    /// One of so many names, as a number of four bytes below their count.
    Choice(u32),
}

impl Scalar {
    /// The number of bytes, which is the alignment too.
    pub fn width(self) -> u32
        ensures { result ≡ width_of self }
    {
        match self {
            Scalar::U8 | Scalar::I8 | Scalar::Flag => 1,
            Scalar::U16 | Scalar::I16 => 2,
            Scalar::U32 | Scalar::I32 | Scalar::Choice(_) => 4,
            Scalar::U64 | Scalar::I64 => 8,
        }
    }

    /// Whether a number is one of its values.
    pub fn holds(self, value: i128) -> bool
        ensures { IsTrue result ↔ IsScalarValue self value }
    {
        self.least() <= value && value < self.limit()
    }

    fn least(self) -> i128
        ensures { result ≡ least_of self }
    {
        match self {
            Scalar::I8 => -(1 << 7),
            Scalar::I16 => -(1 << 15),
            Scalar::I32 => -(1 << 31),
            Scalar::I64 => -(1 << 63),
            _ => 0,
        }
    }

    fn limit(self) -> i128
        ensures { result ≡ limit_of self }
    {
        match self {
            Scalar::U8 => 1 << 8,
            Scalar::U16 => 1 << 16,
            Scalar::U32 => 1 << 32,
            Scalar::U64 => 1 << 64,
            Scalar::I8 => 1 << 7,
            Scalar::I16 => 1 << 15,
            Scalar::I32 => 1 << 31,
            Scalar::I64 => 1 << 63,
            Scalar::Flag => 2,
            Scalar::Choice(count) => i128::from(count),
        }
    }

    /// What a number means that its bytes are.
    pub(crate) fn meaning(self, number: u64) -> Option<i128>
        ensures { result ≡ meaning_of self number }
    {
        match self {
            Scalar::U8 | Scalar::U16 | Scalar::U32 | Scalar::U64 => Some(i128::from(number)),
            Scalar::I8 => Some(signed(1 << 7, number)),
            Scalar::I16 => Some(signed(1 << 15, number)),
            Scalar::I32 => Some(signed(1 << 31, number)),
            Scalar::I64 => Some(signed(1 << 63, number)),
            Scalar::Flag => below(2, number),
            Scalar::Choice(count) => below(u64::from(count), number),
        }
    }

    /// The number that its bytes are where it has a value.
    pub(crate) fn code(self, value: i128) -> u64
        requires { IsScalarValue self value }
        ensures { result ≡ code_of self value }
    {
        if value < 0 {
            (value + self.modulus()) as u64
        } else {
            value as u64
        }
    }

    /// How many numbers its bytes can be.
    fn modulus(self) -> i128
        ensures { result ≡ pos (256 ^ width_of self) }
    {
        match self.width() {
            1 => 1 << 8,
            2 => 1 << 16,
            4 => 1 << 32,
            _ => 1 << 64,
        }
    }
}

/// The number that one stands for of which the half from `half` on stand for negative numbers.
fn signed(half: u64, number: u64) -> i128
    ensures { result ≡ signed_of half number }
{
    if number < half {
        i128::from(number)
    } else {
        i128::from(number) - 2 * i128::from(half)
    }
}

/// The number where it is below a count.
fn below(count: u64, number: u64) -> Option<i128>
    ensures { result ≡ (if nat_lt number count then Some (pos number) else None) }
{
    if number < count {
        Some(i128::from(number))
    } else {
        None
    }
}
