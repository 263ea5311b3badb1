//! Laws of the definitions that stand here, each the contract of a call that does nothing.

ghost use Rattle.std.specs.Prelude.{◌≡◌};
ghost use Rattle.aadl_tree.specs.declared.package.Package.{Package};
ghost use Rattle.aadl_tree.specs.Layout.{canonical_text};
ghost use Rattle.aadl_tree.specs.Unplaced.{SamePackage};

/// Where the parts of a package stand does not show in its canonical text.
pub fn places_do_not_show()
    ensures { (p q : Package) → SamePackage p q → canonical_text p ≡ canonical_text q }
{}
