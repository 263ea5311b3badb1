//! What the declarations of a model contain.

ghost use Rattle.std.specs.Prelude.{◌≡◌, ◌++◌, IfOk, OnOk};
ghost use Rattle.aadl_typing.specs.Containing.{based_on, classes_in, contained_in, edges_of};

use crate::standing::Standing;
use aadl_names::{ClassRow, Scope};
use aadl_tree::{Declaration, Subcomponent};
use aadl_types::{Part, Shape, implementation_shape, type_shape};
use hw_text::{NoMemory, Rows};
use std::alloc::Global;

/// For each declaration the places of those that it contains.
pub fn edges_of(
    alloc: Global,
    scope: &Scope<'_>,
    declarations: &[Declaration],
) -> Result<Rows<Rows<usize>>, NoMemory>
    ensures { IfOk result (λ edges. edges ≡ edges_of scope.now.references.now scope.now.tables.now declarations.now) }
{
    let standing = Standing::of(alloc, declarations)?;
    let mut edges = Rows::new(alloc);
    for declaration in declarations {
        let classes = contained_in(alloc, scope, declaration)?;
        edges.push(standing.places(alloc, classes.rows())?)?;
    }
    Ok(edges)
}

/// What a declaration contains.
fn contained_in(
    alloc: Global,
    scope: &Scope<'_>,
    declaration: &Declaration,
) -> Result<Rows<ClassRow>, NoMemory>
    ensures { IfOk result (λ classes. classes ≡ contained_in scope.now.references.now scope.now.tables.now declaration.now) }
{
    match declaration {
        Declaration::Type(declared) => {
            let mut classes = Rows::new(alloc);
            let shape = type_shape(alloc, scope.tables, scope.references, declared)?;
            push_base(&mut classes, &shape)?;
            Ok(classes)
        }
        Declaration::Implementation(declared) => {
            let mut classes = classes_in(alloc, scope, declared.subcomponents.rows())?;
            let shape = implementation_shape(alloc, scope.tables, scope.references, declared)?;
            push_base(&mut classes, &shape)?;
            Ok(classes)
        }
        Declaration::Annex(_) => Ok(Rows::new(alloc)),
    }
}

/// The classes of these subcomponents.
fn classes_in(
    alloc: Global,
    scope: &Scope<'_>,
    subcomponents: &[Subcomponent],
) -> Result<Rows<ClassRow>, NoMemory>
    ensures { IfOk result (λ classes. classes ≡ classes_in scope.now.references.now scope.now.tables.now subcomponents.now) }
{
    let mut classes = Rows::new(alloc);
    for subcomponent in subcomponents {
        let Subcomponent {
            category,
            class,
            ..
        } = subcomponent;
        if let Some(row) = scope
            .references
            .means(alloc, scope.tables, *category, class)?
        {
            classes.push(row)?;
        }
    }
    Ok(classes)
}

/// Appends what an array or an alias is made of.
fn push_base(classes: &mut Rows<ClassRow>, shape: &Option<Shape>) -> Result<(), NoMemory>
    ensures { OnOk result (classes.new ≡ classes.old ++ based_on shape.now) }
{
    match shape {
        Some(Shape::Array(Part::Row(class), _)) | Some(Shape::Alias(Part::Row(class))) => {
            classes.push(*class)
        }
        _ => Ok(()),
    }
}
