//! Laws of layouts and values, which hold by themselves.

ghost use Rattle.std.specs.Prelude.{◌≡◌, ◌≤◌, ◌<◌, ◌+◌, ◌*◌, ◌%◌, ℕ, ℤ, List, length, Some};
ghost use Rattle.hw_types.specs.declared.ty.Ty.{Ty as AnyType};
ghost use Rattle.hw_types.specs.Count.{scalar_count};
ghost use Rattle.hw_types.specs.Layout.{aligned_up, shape_of};
ghost use Rattle.hw_types.specs.Shape.{Shape, IsAlign, IsLaidOut};
ghost use Rattle.hw_types.specs.Value.{IsValueOf, bytes_for, value_in};

/// Bytes that were made from a value are read as that value.
pub fn read_back()
    ensures { (layout : Shape) (value : List ℤ) → IsLaidOut layout → IsValueOf layout value →
        value_in layout (bytes_for layout value) ≡ Some value }
{}

/// The bytes that are made from a value are as many as its layout says.
pub fn whole_size()
    ensures { (layout : Shape) (value : List ℤ) → IsLaidOut layout → IsValueOf layout value →
        length (bytes_for layout value) ≡ layout.size }
{}

/// Every type's layout keeps what layouts keep, and holds each scalar of the type.
pub fn all_laid_out()
    ensures laid_out { (ty : AnyType) → IsLaidOut (shape_of ty) }
    ensures counted { (ty : AnyType) → length (shape_of ty).scalars ≡ scalar_count ty }
    ensures small { (ty : AnyType) → (shape_of ty).size ≤ 8 * scalar_count ty }
{}

/// A place is moved up to the least multiple of an alignment.
pub fn aligned_least()
    ensures multiple { (place align : ℕ) → IsAlign align → aligned_up place align % align ≡ 0 }
    ensures above { (place align : ℕ) → IsAlign align → place ≤ aligned_up place align }
    ensures least { (place align : ℕ) → IsAlign align → aligned_up place align < place + align }
{}
