//! Device types.

ghost use Rattle.std.specs.Prelude.{◌≡◌, IfOk};
ghost use Rattle.hamr_cli.specs.Package.{device_in};
ghost use Rattle.hamr_cli.specs.Parts.{is_device, is_bare_device, device_of};

use crate::package::part::{ThinPart, all_of};
use crate::thin::device::Device;
use aadl_tree::{Category, ComponentType, Declaration};
use hw_text::NoMemory;
use std::alloc::Global;

impl ThinPart<Declaration> for Device {
    ghost use Rattle.hamr_cli.specs.Package.{device_in};

    ghost part_of = { device_in };

    fn of(alloc: Global, tree: &Declaration) -> Result<Option<Self>, NoMemory> {
        device_in(alloc, tree)
    }
}

fn device_in(alloc: Global, declaration: &Declaration) -> Result<Option<Device>, NoMemory>
    ensures { IfOk result (λ found. found ≡ device_in declaration.now) }
{
    match declaration {
        Declaration::Type(component) => device_of(alloc, component),
        Declaration::Implementation(_) | Declaration::Annex(_) => Ok(None),
    }
}

#[tactic(auto, unfolding(crate::specs::Parts::device_of))]
fn device_of(alloc: Global, component: &ComponentType) -> Result<Option<Device>, NoMemory>
    ensures { IfOk result (λ found. found ≡ device_of component.now) }
{
    let Some(features) = all_of(alloc, component.features.rows())? else {
        return Ok(None);
    };
    if !is_bare_device(component) {
        return Ok(None);
    }
    Ok(Some(Device {
        name: component.name.name.copy()?,
        features,
        end_name: component.end_name.name.copy()?,
    }))
}

/// Whether it is a device type with nothing but features.
fn is_bare_device(component: &ComponentType) -> bool
    ensures { result ≡ is_bare_device component.now }
{
    is_device(component.category) && component.properties.is_empty() && component.annexes.is_empty()
}

pub fn is_device(category: Category) -> bool
    ensures { result ≡ is_device category }
{
    matches!(category, Category::Device)
}
