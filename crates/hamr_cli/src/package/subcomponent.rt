//! Subcomponents.

ghost use Rattle.std.specs.Prelude.{◌≡◌, IfOk};
ghost use Rattle.std.specs.Option.{option_map};
ghost use Rattle.hamr_cli.specs.Parts.{type_name, subcomponent_of};

use crate::package::device::is_device;
use crate::package::part::ThinPart;
use crate::thin::subcomponent::Subcomponent;
use aadl_tree::Class;
use hw_text::{Name, NoMemory};
use std::alloc::Global;

impl ThinPart<aadl_tree::Subcomponent> for Subcomponent {
    ghost use Rattle.hamr_cli.specs.Parts.{subcomponent_of};

    ghost part_of = { subcomponent_of };

    fn of(_alloc: Global, tree: &aadl_tree::Subcomponent) -> Result<Option<Self>, NoMemory> {
        subcomponent_of(tree)
    }
}

#[tactic(auto, unfolding(crate::specs::Parts::subcomponent_of))]
fn subcomponent_of(tree: &aadl_tree::Subcomponent) -> Result<Option<Subcomponent>, NoMemory>
    ensures { IfOk result (λ found. found ≡ subcomponent_of tree.now) }
{
    let Some(device) = type_name(&tree.class) else {
        return Ok(None);
    };
    if !is_device(tree.category) || tree.own.is_some() {
        return Ok(None);
    }
    Ok(Some(Subcomponent {
        name: tree.name.name.copy()?,
        device: device.copy()?,
    }))
}

/// The name of a component type, without `::` and without an implementation.
fn type_name(class: &Class) -> Option<&Name>
    ensures { option_map (λ name. name.now) result ≡ type_name class.now }
{
    match class {
        Class::Base(_, _) => None,
        Class::Model(class) => {
            if class.implementation.is_some() || !class.others.is_empty() {
                return None;
            }
            Some(&class.first.name)
        }
    }
}
