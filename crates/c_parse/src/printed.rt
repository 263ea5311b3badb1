//! What is printed is read again.

ghost use Rattle.std.specs.Prelude.{◌≡◌, true};
ghost use Rattle.c_tree.specs.Dialects.{is_user_unit, ranges_hold};
ghost use Rattle.c_tree.specs.declared.dialect.Dialect.TheVariants.{User, Full};
ghost use Rattle.c_tree.specs.declared.unit.Unit.{Unit as CUnit};
ghost use Rattle.c_tree.specs.Items.{unit_text};
ghost use Rattle.c_parse.specs.Lexed.{IsLexedAs};
ghost use Rattle.c_parse.specs.Printed.{IsWithinLimits, IsReadBack};
ghost use Rattle.c_parse.specs.PrintedUnits.{unit_tokens};

/// The law of printing and reading tokens: the canonical text of a unit has its canonical tokens and
/// no others.
pub fn printed_has_tokens()
    ensures { (u : CUnit) → IsLexedAs (unit_text u) (unit_tokens u) }
{}

/// The law of printing and reading: the canonical text of a unit of which each range holds is a text
/// of the full grammar, and that of a user's unit within the limits one of the grammar of users, of
/// a unit that is the same but for places.
pub fn printed_is_text()
    ensures full { (u : CUnit) → ranges_hold u ≡ true → IsReadBack Full u }
    ensures user { (u : CUnit) → is_user_unit u ≡ true → IsWithinLimits u → IsReadBack User u }
{}
