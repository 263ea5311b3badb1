//! The operators of a level, and how they are read.

ghost use Rattle.std.specs.Prelude.{◌≡◌, true};
ghost use Rattle.hw_text.specs.Language.{One};
ghost use Rattle.hw_text.specs.Reading.{Reads, Anything, begins};
ghost use Rattle.hw_reading.specs.Shapes.{shapes_of};
ghost use Rattle.gumbo_parse.specs.Levels.{infixes, prefixes};
ghost use Rattle.gumbo_parse.specs.Values.{one_of, one_listed};

use crate::level::Level;
use crate::operator::{BinaryOperator, UnaryOperator};
use crate::token::Token;
use hw_reading::{read_listed, stands_listed};
use hw_text::{Cursor, Place, Placed, ReadFault};

/// Whether an operator between operands of the level is ahead.
pub fn stands_infix(tokens: &Cursor<'_, Placed<Token>>, level: Level) -> bool
    ensures { result ≡ begins (one_of (shapes_of (infixes level))) tokens.now }
{
    stands_listed(tokens, level.infixes())
}

/// Whether an operator before an operand of the level is ahead.
pub fn stands_prefix(tokens: &Cursor<'_, Placed<Token>>, level: Level) -> bool
    ensures { result ≡ begins (one_of (shapes_of (prefixes level))) tokens.now }
{
    stands_listed(tokens, level.prefixes())
}

/// Reads the operator ahead between operands of the level.
pub fn read_infix(
    tokens: &mut Cursor<'_, Placed<Token>>,
    level: Level,
) -> Result<(Place, BinaryOperator), ReadFault>
    requires { begins (one_of (shapes_of (infixes level))) tokens.old ≡ true }
    ensures { Reads (One (one_listed (infixes level))) Anything tokens.old tokens.new result }
{
    read_listed(tokens, level.infixes())
}

/// Reads the operator ahead before an operand of the level.
pub fn read_prefix(
    tokens: &mut Cursor<'_, Placed<Token>>,
    level: Level,
) -> Result<(Place, UnaryOperator), ReadFault>
    requires { begins (one_of (shapes_of (prefixes level))) tokens.old ≡ true }
    ensures { Reads (One (one_listed (prefixes level))) Anything tokens.old tokens.new result }
{
    read_listed(tokens, level.prefixes())
}
