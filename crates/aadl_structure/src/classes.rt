//! What the classes of subcomponents mean, by the implementations that they stand in.

ghost use Rattle.std.specs.Prelude.{◌≡◌, map, IfOk};
ghost use Rattle.aadl_structure.specs.Mentions.{classes_in};

use aadl_names::{ClassRow, Scope};
use aadl_tree::Implementation;
use hw_text::{NoMemory, Rows};
use std::alloc::Global;

/// Those of each implementation.
pub fn classes_inside(
    alloc: Global,
    scope: &Scope<'_>,
) -> Result<Rows<Rows<Option<ClassRow>>>, NoMemory>
    ensures { IfOk result (λ classes. classes ≡ map (classes_in scope.now.references.now scope.now.tables.now) scope.now.tables.now.implementations) }
{
    let tables = scope.tables;
    let mut classes = Rows::new(alloc);
    for implementation in tables.implementations.rows() {
        classes.push(classes_in(alloc, scope, implementation.get())?)?;
    }
    Ok(classes)
}

/// Those of one implementation.
fn classes_in(
    alloc: Global,
    scope: &Scope<'_>,
    implementation: &Implementation,
) -> Result<Rows<Option<ClassRow>>, NoMemory>
    ensures { IfOk result (λ classes. classes ≡ classes_in scope.now.references.now scope.now.tables.now implementation.now) }
{
    let (references, tables) = (scope.references, scope.tables);
    let mut classes = Rows::new(alloc);
    for part in implementation.subcomponents.rows() {
        classes.push(references.means(alloc, tables, part.category, &part.class)?)?;
    }
    Ok(classes)
}
