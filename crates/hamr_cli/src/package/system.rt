//! The system of a model, and its implementation.

ghost use Rattle.std.specs.Prelude.{◌≡◌, ◌≤◌, length, IfOk};
ghost use Rattle.std.specs.Option.{option_map};
ghost use Rattle.hamr_cli.specs.Package.{is_system, is_thin_system, system_of, system_in, system_place, implementation_name_of, heading_of, model_with};

use crate::package::part::all_of;
use crate::thin::device::Device;
use crate::thin::heading::{Ending, Heading, ImplementationName};
use crate::thin::model::ThinModel;
use aadl_tree::{Category, ComponentType, Declaration, Implementation};
use hw_text::{Name, NoMemory, Rows};
use std::alloc::Global;

/// Where the last two declarations begin.
pub fn system_place(declarations: &[Declaration]) -> usize
    ensures value { result ≡ system_place declarations.now }
    ensures within { result ≤ length declarations.now }
{
    declarations.len().saturating_sub(2)
}

/// The system type and its implementation, where these are all that is declared.
pub fn system_in(declarations: &[Declaration]) -> Option<(&ComponentType, &Implementation)>
    ensures { option_map (λ r. (r.0.now, r.1.now)) result ≡ system_in declarations.now }
{
    let (first, rest) = declarations.split_first()?;
    let (second, others) = rest.split_first()?;
    if others.is_empty() {
        system_of(first, second)
    } else {
        None
    }
}

fn system_of<'a>(
    first: &'a Declaration,
    second: &'a Declaration,
) -> Option<(&'a ComponentType, &'a Implementation)>
    ensures { option_map (λ r. (r.0.now, r.1.now)) result ≡ system_of first.now second.now }
{
    match (first, second) {
        (Declaration::Type(component), Declaration::Implementation(implementation))
            if is_thin_system(component, implementation) => { Some((component, implementation)) }
        _ => None,
    }
}

fn is_thin_system(component: &ComponentType, implementation: &Implementation) -> bool
    ensures { result ≡ is_thin_system component.now implementation.now }
{
    is_system(component.category)
        && component.features.is_empty()
        && component.properties.is_empty()
        && component.annexes.is_empty()
        && is_system(implementation.category)
        && implementation.properties.is_empty()
        && implementation.annexes.is_empty()
}

fn is_system(category: Category) -> bool
    ensures { result ≡ is_system category }
{
    matches!(category, Category::System)
}

/// The model with this system, by what it is made of.
#[tactic(auto, unfolding(crate::specs::Package::model_with))]
pub fn model_with(
    alloc: Global,
    name: &Name,
    end_name: &Name,
    devices: Rows<Device>,
    component: &ComponentType,
    implementation: &Implementation,
) -> Result<Option<ThinModel>, NoMemory>
    ensures { IfOk result (λ found. found ≡ model_with name.now end_name.now devices (component.now, implementation.now)) }
{
    let Some(subcomponents) = all_of(alloc, implementation.subcomponents.rows())? else {
        return Ok(None);
    };
    let Some(connections) = all_of(alloc, implementation.connections.rows())? else {
        return Ok(None);
    };
    let ending = Ending {
        implementation: implementation_name_of(&implementation.end_name)?,
        package_name: end_name.copy()?,
    };
    Ok(Some(ThinModel {
        package_name: name.copy()?,
        devices,
        heading: heading_of(component, implementation)?,
        subcomponents,
        connections,
        ending,
    }))
}

fn heading_of(
    component: &ComponentType,
    implementation: &Implementation,
) -> Result<Heading, NoMemory>
    ensures { IfOk result (λ heading. heading ≡ heading_of component.now implementation.now) }
{
    Ok(Heading {
        system: component.name.name.copy()?,
        system_end: component.end_name.name.copy()?,
        implementation: implementation_name_of(&implementation.name)?,
    })
}

fn implementation_name_of(
    name: &aadl_tree::ImplementationName,
) -> Result<ImplementationName, NoMemory>
    ensures { IfOk result (λ copy. copy ≡ implementation_name_of name.now) }
{
    Ok(ImplementationName {
        system: name.component_type.name.copy()?,
        own: name.name.copy()?,
    })
}
