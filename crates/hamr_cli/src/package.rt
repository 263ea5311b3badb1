//! Thin models in the form of parsed packages.

mod connection;
mod device;
mod feature;
mod part;
mod queue;
mod subcomponent;
mod system;
mod words;

ghost use Rattle.std.specs.Prelude.{◌≡◌, IfOk, IfSome, Some};
ghost use Rattle.arch_model.specs.declared.parts.ArchParts.{ArchParts};
ghost use Rattle.hamr_cli.specs.Package.{imports_base, declared_model, model_of, IsThinPackage};

use crate::package::part::all_of;
use crate::package::system::{model_with, system_in, system_place};
use crate::package::words::{is_word, plain_name};
use crate::thin::checks::has_thin_shape;
use crate::thin::instance_of;
use crate::thin::model::ThinModel;
use aadl_tree::{Declaration, Import, Package};
use arch_model::Arch;
use hw_text::{Name, NoMemory};
use std::alloc::Global;

/// The instance of a package, where it is that of a thin model.
pub fn read_package(alloc: Global, tree: &Package) -> Result<Option<Arch>, NoMemory>
    ensures found { IfOk result (λ found. IfSome found (λ arch. IsThinPackage tree.now arch)) }
    ensures only { (arch : ArchParts) → IsThinPackage tree.now arch → IfOk result (λ found. found ≡ Some arch) }
{
    let Some(model) = model_of(alloc, tree)? else {
        return Ok(None);
    };
    if !has_thin_shape(alloc, &model)? {
        return Ok(None);
    }
    instance_of(alloc, &model)
}

/// What the package says, where it has the form of a thin model.
#[tactic(auto, unfolding(crate::specs::Package::model_of))]
fn model_of(alloc: Global, tree: &Package) -> Result<Option<ThinModel>, NoMemory>
    ensures { IfOk result (λ found. found ≡ model_of tree.now) }
{
    let Some(name) = plain_name(&tree.name) else {
        return Ok(None);
    };
    let Some(end_name) = plain_name(&tree.end_name) else {
        return Ok(None);
    };
    if !imports_base(tree.imports.rows()) {
        return Ok(None);
    }
    declared_model(alloc, name, end_name, tree.declarations.rows())
}

/// Whether `base_types` is all that is imported.
fn imports_base(imports: &[Import]) -> bool
    ensures { result ≡ imports_base imports.now }
{
    match imports.split_first() {
        Some((first, others)) => {
            is_word(b"base_types", &first.first) && first.others.is_empty() && others.is_empty()
        }
        None => false,
    }
}

/// What the declarations say: device types, and behind them a system and its implementation.
#[tactic(auto, unfolding(crate::specs::Package::declared_model))]
fn declared_model(
    alloc: Global,
    name: &Name,
    end_name: &Name,
    declarations: &[Declaration],
) -> Result<Option<ThinModel>, NoMemory>
    ensures { IfOk result (λ found. found ≡ declared_model name.now end_name.now declarations.now) }
{
    let (front, back) = declarations.split_at(system_place(declarations));
    let Some(devices) = all_of(alloc, front)? else {
        return Ok(None);
    };
    let Some((system, implementation)) = system_in(back) else {
        return Ok(None);
    };
    model_with(alloc, name, end_name, devices, system, implementation)
}
