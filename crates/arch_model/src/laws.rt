//! Laws of the types of an architecture, which hold by themselves.

ghost use Rattle.std.specs.Prelude.{◌≡◌, ℕ, List, All};
ghost use Rattle.hw_types.specs.declared.ty.Ty.{Ty as AnyType};
ghost use Rattle.arch_model.specs.declared.type_row.TypeRow.{TypeRow as AnyRow};
ghost use Rattle.arch_model.specs.BaseTypes.{base_rows};
ghost use Rattle.arch_model.specs.Types.{IsRanked, IsTypeAt, StandForTypes};
ghost use Rattle.arch_model.specs.TypeTable.{HasWords, IsTypeTable};

/// A row stands for one type at most, whatever its parts are.
pub fn one_type()
    ensures { (rows : List AnyRow) (place : ℕ) (type other : AnyType) → IsTypeAt rows place type → IsTypeAt rows place other
        → type ≡ other }
{}

/// Rows that refer to rows of a lower rank alone stand for types: a ranking shows that no row
/// contains itself.
pub fn ranked_rows_have_types()
    ensures { (rank : ℕ → ℕ) (rows : List AnyRow) → IsRanked rank rows → All HasWords rows → StandForTypes rows }
{}

/// The rows with which every table of types begins are such a table by themselves.
pub fn base_is_table()
    ensures { IsTypeTable base_rows }
{}
