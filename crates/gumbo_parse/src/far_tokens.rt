//! How far behind the colon of a clause a text has come.

ghost use Rattle.std.specs.Prelude.{◌≡◌, ◌↔◌, ℕ};
ghost use Rattle.gumbo_parse.specs.declared.flaw.Spot.TheVariants.{Outside, Expression};
ghost use Rattle.gumbo_parse.specs.FarTokens.{EndsInExpression};
ghost use Rattle.gumbo_parse.specs.Flaws.{spot_after};
ghost use Rattle.gumbo_parse.specs.Values.{Tokens};

/// The law of what the limit of tokens counts: tokens end so many tokens behind the colon of a
/// clause exactly where they end in the word of a clause, what stands between that and its colon,
/// the colon, and so many tokens of which none is a semicolon or begins a clause.
pub fn counted_from_the_colon()
    ensures { (ts : Tokens) (n : ℕ) → (spot_after Outside ts ≡ Expression n) ↔ EndsInExpression ts n }
{}
