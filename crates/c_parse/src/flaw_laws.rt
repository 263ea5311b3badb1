//! Laws of what may be wrong with tokens, which hold by themselves.

ghost use Rattle.std.specs.Prelude.{◌≡◌, ◌≤◌, ◌<◌, ◌+◌, ◌-◌, ℕ, Bool, List, ◌∷◌, ◌++◌, codes, length, take, true, false, Some, None};
ghost use Rattle.hw_text.specs.declared.place.Place.{Place};
ghost use Rattle.hw_text.specs.declared.placed.Placed.{Placed};
ghost use Rattle.hw_text.specs.WholeLists.{GoesOn};
ghost use Rattle.hw_text.specs.WholeTexts.{FailsAt};
ghost use Rattle.c_tree.specs.declared.expression.Expression.{Expression};
ghost use Rattle.c_tree.specs.declared.dialect.Dialect.TheVariants.{User};
ghost use Rattle.c_tree.specs.declared.dialect.Dialect.{Dialect};
ghost use Rattle.c_parse.specs.declared.flaw.Flaw.TheVariants.{TooLong};
ghost use Rattle.c_parse.specs.declared.token.Token.{Token};
ghost use Rattle.c_parse.specs.Values.{Tokens};
ghost use Rattle.c_parse.specs.ExpressionGrammar.{SpellsWhole};
ghost use Rattle.c_parse.specs.Flaws.{is_too_long, flaw_at, place_at};
ghost use Rattle.c_parse.specs.Nesting.{ends, leads, expression_length};
ghost use Rattle.c_parse.specs.Outermost.{IsTooLongAt};
ghost use Rattle.c_parse.specs.RangeEnds.{empty_range_at};
ghost use Rattle.c_parse.specs.Ranges.{IsEmptyRange};
ghost use Rattle.c_parse.specs.Refusals.{limit};
ghost use Rattle.c_parse.specs.UnitGrammar.{SpellsUnit};
ghost use Rattle.c_parse.specs.WholeUnits.{user_rules};

/// An expression of more than 500 tokens is found at its 501st token, wherever one may begin; so
/// there is none where nothing is wrong. As many tokens are counted as it has, up to what ends it
/// or to the end.
pub fn long_expressions()
    ensures found { (before ts after : Tokens) (t : Placed Token) (x : Expression) → leads t.token ≡ true →
        SpellsWhole User x ts → 500 < length ts → is_too_long (before ++ t ∷ (ts ++ after)) (length before + 501) ≡ true }
    ensures sound { (before ts after : Tokens) (t : Placed Token) (x : Expression) → leads t.token ≡ true → SpellsWhole User x ts →
        ((k : ℕ) → flaw_at User (before ++ t ∷ (ts ++ after)) k ≡ None) → length ts ≤ 500 }
    ensures ended { (ts after : Tokens) (t : Placed Token) (x : Expression) → SpellsWhole User x ts →
        ends t.token ≡ true → expression_length (ts ++ t ∷ after) ≡ length ts }
    ensures last { (ts : Tokens) (x : Expression) → SpellsWhole User x ts → expression_length ts ≡ length ts }
{}

/// A token that is told as one too many, where nothing is wrong before, is the 501st of an
/// expression that stands in no other, in a text that goes on with it. What is refused for such a
/// token is told where that expression begins. The 501st token of each such expression is found.
pub fn outermost_expressions()
    ensures refused { (ts : Tokens) (i : ℕ) (end : Place) → GoesOn (SpellsUnit User end) (take (i + 1) ts) → flaw_at User ts i ≡ Some TooLong →
        ((k : ℕ) → k < i → flaw_at User ts k ≡ None) → IsTooLongAt end ts i }
    ensures failure { (ts : Tokens) (end : Place) (stop : List ℕ) (i n : ℕ) (at : Place) →
        FailsAt user_rules ts end stop i (limit (codes "tokens") at n 500) → IsTooLongAt end ts i × (at ≡ place_at ts (i - 500)) }
    ensures told { (ts : Tokens) (i : ℕ) (end : Place) → i < length ts → IsTooLongAt end ts i → is_too_long ts i ≡ true }
{}

/// Tokens end an empty range exactly where one is found, and what is found is where its second
/// literal begins. There is none where nothing is wrong.
pub fn empty_ranges()
    ensures found { (ts : Tokens) (i : ℕ) (at : Place) → IsEmptyRange ts i at → empty_range_at ts i ≡ Some at }
    ensures only { (ts : Tokens) (i : ℕ) (at : Place) → empty_range_at ts i ≡ Some at → IsEmptyRange ts i at }
    ensures sound { (dialect : Dialect) (ts : Tokens) (i : ℕ) (at : Place) → flaw_at dialect ts i ≡ None → IsEmptyRange ts i at → ⊥ }
{}
