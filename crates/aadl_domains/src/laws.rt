//! What the list of components holds, in a relation's words.

ghost use Rattle.std.specs.Prelude.{ℕ, ◌≤◌, List, length, Contains};
ghost use Rattle.aadl_names.specs.declared.resolved.Resolved.{Resolved as ResolvedValue};
ghost use Rattle.aadl_names.specs.declared.tables.Tables.{Tables as TablesValue};
ghost use Rattle.aadl_domains.specs.declared.sought.Sought.{Sought as SoughtValue};
ghost use Rattle.aadl_domains.specs.Components.{components_of};
ghost use Rattle.aadl_domains.specs.Paths.{IsComponent};

/// What is listed is a component below the root.
pub fn listed_are_components()
    ensures { (asked : SoughtValue) (t : TablesValue) (to : ResolvedValue) (root : ℕ) (path : List ℕ) → Contains (components_of asked t to root) path → IsComponent asked t to root path }
{}

/// And every component that lies in at most 32 systems is listed.
pub fn components_are_listed()
    ensures { (asked : SoughtValue) (t : TablesValue) (to : ResolvedValue) (root : ℕ) (path : List ℕ) → IsComponent asked t to root path → length path ≤ 33 → Contains (components_of asked t to root) path }
{}
