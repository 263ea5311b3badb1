//! Of which units a grammar has texts.

ghost use Rattle.std.specs.Prelude.{◌≡◌, true};
ghost use Rattle.hw_text.specs.declared.place.Place.{Place};
ghost use Rattle.c_tree.specs.Dialects.{has_unit};
ghost use Rattle.c_tree.specs.declared.dialect.Dialect.{Dialect};
ghost use Rattle.c_tree.specs.declared.unit.Unit.{Unit as CUnit};
ghost use Rattle.c_parse.specs.DialectTexts.{HasNoEmptyRange, HasText};
ghost use Rattle.c_parse.specs.UnitGrammar.{SpellsUnit};
ghost use Rattle.c_parse.specs.Values.{Tokens};

/// The law of the two grammars: they have texts in which no range is empty of exactly the units that
/// they are said to have, but for places, so that of users has texts of users' units and no others.
pub fn texts_are_of_dialects()
    ensures only { (dialect : Dialect) (end : Place) (u : CUnit) (ts : Tokens) → SpellsUnit dialect end u ts → HasNoEmptyRange ts → has_unit dialect u ≡ true }
    ensures all { (dialect : Dialect) (u : CUnit) → has_unit dialect u ≡ true → HasText dialect u }
{}
