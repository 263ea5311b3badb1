//! Refusals of references that lead to nothing.

ghost use Rattle.std.specs.Prelude.{◌≡◌, option_and_then, IfOk};
ghost use Rattle.aadl_names.specs.Meanings.{path_row};
ghost use Rattle.aadl_structure.specs.Unknown.{class_place, meant, class_offence, end_offence, path_offence};

use aadl_names::{ClassRow, Element, Scope, named};
use aadl_tree::{Category, Class, ConnectionEnd, Path};
use hw_text::{Code, NoMemory, Place, Refusal};
use std::alloc::Global;

/// The refusal of a classifier, where it means nothing of the category that is asked for.
pub fn missing_class(
    alloc: Global,
    scope: &Scope<'_>,
    asked: Option<Category>,
    class: &Class,
) -> Result<Option<Refusal>, NoMemory>
    ensures { IfOk result (λ offence. offence ≡ class_offence scope.now.references.now scope.now.tables.now asked class.now) }
{
    if meant(alloc, scope, asked, class)?.is_some() {
        return Ok(None);
    }
    let text = class.text(alloc)?;
    Ok(Some(named(Code::ModelUnknown, class_place(class), text)))
}

fn meant(
    alloc: Global,
    scope: &Scope<'_>,
    asked: Option<Category>,
    class: &Class,
) -> Result<Option<ClassRow>, NoMemory>
    ensures { IfOk result (λ row. row ≡ meant scope.now.references.now scope.now.tables.now asked class.now) }
{
    match asked {
        Some(asked) => scope.references.means(alloc, scope.tables, asked, class),
        None => scope.references.class(alloc, class),
    }
}

/// Where the first token of a classifier stands.
fn class_place(class: &Class) -> Place
    ensures { result ≡ class_place class.now }
{
    match class {
        Class::Base(place, _) => *place,
        Class::Model(own) => own.place,
    }
}

/// The refusal of an end of a connection, where it means no port.
pub fn missing_end(
    alloc: Global,
    scope: &Scope<'_>,
    implementation: usize,
    end: &ConnectionEnd,
) -> Result<Option<Refusal>, NoMemory>
    ensures { IfOk result (λ offence. offence ≡ end_offence scope.now.references.now scope.now.resolved.now implementation end.now) }
{
    if scope.end(implementation, end).is_some() {
        return Ok(None);
    }
    let text = end.text(alloc)?;
    Ok(Some(named(Code::ModelUnknown, end.first.place, text)))
}

/// The refusal of a path, where it leads to nothing from there.
pub fn missing_path(
    alloc: Global,
    scope: &Scope<'_>,
    from: Option<ClassRow>,
    path: &Path,
) -> Result<Option<Refusal>, NoMemory>
    ensures { IfOk result (λ offence. offence ≡ path_offence scope.now.references.now scope.now.resolved.now scope.now.tables.now from path.now) }
{
    if led_to(scope, from, path).is_some() {
        return Ok(None);
    }
    let text = path.text(alloc)?;
    Ok(Some(named(Code::ModelUnknown, path.first.place, text)))
}

fn led_to(scope: &Scope<'_>, from: Option<ClassRow>, path: &Path) -> Option<Element>
    ensures { result ≡ option_and_then (λ class. path_row scope.now.references.now scope.now.resolved.now scope.now.tables.now class path.now) from }
{
    scope.path(from?, path)
}
