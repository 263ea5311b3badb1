//! What is printed is read again.

ghost use Rattle.hw_text.specs.WholeTexts.{IsTextOf};
ghost use Rattle.aadl_tree.specs.declared.package.Package.{Package};
ghost use Rattle.aadl_tree.specs.Allowed.{AreAllowed};
ghost use Rattle.aadl_tree.specs.Layout.{canonical_text};
ghost use Rattle.aadl_tree.specs.Packages.{package_tokens};
ghost use Rattle.aadl_tree.specs.Unplaced.{SamePackage};
ghost use Rattle.aadl_parse.specs.Printed.{IsWithinLimits};
ghost use Rattle.aadl_parse.specs.Rules.{model_rules};

/// The law of printing and reading: the canonical text of a package whose tokens are those that its
/// types allow, as `print` ensures, is within the limits a text of a package that is the same but
/// for places.
pub fn printed_is_text()
    ensures { (p : Package) → AreAllowed (package_tokens p) → IsWithinLimits p → (q : Package) × IsTextOf model_rules (canonical_text p) q × SamePackage p q }
{}
