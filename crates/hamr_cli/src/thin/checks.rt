//! What is asked of a model beyond its grammar.

ghost use Rattle.std.specs.Prelude.{◌≡◌, ◌≤◌, ◌↔◌, ◌++◌, ◌∷◌, true, length, map, All, IfOk, IsTrue};
ghost use Rattle.hamr_cli.specs.Instance.{is_declared};
ghost use Rattle.hamr_cli.specs.Names.{Differ};
ghost use Rattle.hamr_cli.specs.Model.{HasMatchingEnds, HasThinQueue, IsThinDevice, HasThinSize, HasThinShape};

use crate::thin::device::Device;
use crate::thin::feature::Feature;
use crate::thin::instance::{is_declared, size_of};
use crate::thin::model::ThinModel;
use crate::thin::name_set::NameSet;
use crate::thin::subcomponent::Subcomponent;
use hw_text::{Name, NoMemory};
use std::alloc::Global;

/// How many features a device may have.
const MOST_FEATURES: usize = 32;
/// How many subcomponents there may be.
const MOST_SUBCOMPONENTS: usize = 60;
/// The largest Queue_Size.
const MOST_ITEMS: u32 = 64;

/// Whether the model has the names and the sizes of a thin one. What is left to see is that its
/// connections fit.
pub fn has_thin_shape(alloc: Global, model: &ThinModel) -> Result<bool, NoMemory>
    ensures { IfOk result (λ thin. IsTrue thin ↔ HasThinShape model.now) }
{
    if !has_matching_ends(model)
        || !has_thin_size(model)
        || !all_declared(model.devices.rows(), model.subcomponents.rows())
    {
        return Ok(false);
    }
    if !are_thin_devices(alloc, model.devices.rows())? || !type_names_differ(alloc, model)? {
        return Ok(false);
    }
    member_names_differ(alloc, model)
}

fn has_thin_size(model: &ThinModel) -> bool
    ensures { IsTrue result ↔ HasThinSize model.now }
{
    !model.devices.is_empty()
        && !model.subcomponents.is_empty()
        && model.subcomponents.len() <= MOST_SUBCOMPONENTS
        && !model.connections.is_empty()
}

fn has_matching_ends(model: &ThinModel) -> bool
    ensures { IsTrue result ↔ HasMatchingEnds model.now }
{
    let own = &model.heading.implementation;
    let end = &model.ending.implementation;
    is_same(&model.ending.package_name, &model.package_name)
        && is_same(&model.heading.system_end, &model.heading.system)
        && is_same(&own.system, &model.heading.system)
        && is_same(&end.system, &own.system)
        && is_same(&end.own, &own.own)
}

fn is_same(name: &Name, other: &Name) -> bool
    ensures { IsTrue result ↔ (name.now ≡ other.now) }
{
    name.rows() == other.rows()
}

/// Whether each subcomponent's device is declared.
fn all_declared(devices: &[Device], subcomponents: &[Subcomponent]) -> bool
    ensures { IsTrue result ↔ All (λ s. is_declared devices.now s.device ≡ true) subcomponents.now }
{
    for subcomponent in subcomponents {
        if !is_declared(devices, subcomponent.device.rows()) {
            return false;
        }
    }
    true
}

fn are_thin_devices(alloc: Global, devices: &[Device]) -> Result<bool, NoMemory>
    ensures { IfOk result (λ thin. IsTrue thin ↔ All IsThinDevice devices.now) }
{
    for device in devices {
        if !is_thin_device(alloc, device)? {
            return Ok(false);
        }
    }
    Ok(true)
}

fn is_thin_device(alloc: Global, device: &Device) -> Result<bool, NoMemory>
    ensures { IfOk result (λ thin. IsTrue thin ↔ IsThinDevice device.now) }
{
    let features = device.features.rows();
    if !is_same(&device.end_name, &device.name)
        || features.len() == 0
        || features.len() > MOST_FEATURES
        || !have_thin_queues(features)
    {
        return Ok(false);
    }
    NameSet::new(alloc).insert_all(features)
}

/// Whether each Queue_Size is one that a thin model may have.
fn have_thin_queues(features: &[Feature]) -> bool
    ensures { IsTrue result ↔ All HasThinQueue features.now }
{
    for feature in features {
        if !has_thin_queue(feature) {
            return false;
        }
    }
    true
}

fn has_thin_queue(feature: &Feature) -> bool
    ensures { IsTrue result ↔ HasThinQueue feature.now }
{
    let size = size_of(feature.way);
    1 <= size && size <= MOST_ITEMS
}

fn type_names_differ(alloc: Global, model: &ThinModel) -> Result<bool, NoMemory>
    ensures { IfOk result (λ differ. IsTrue differ ↔ Differ (model.now.heading.system ∷ map (λ d. d.name) model.now.devices)) }
{
    let mut names = NameSet::new(alloc);
    if !names.insert(model.heading.system.rows())? {
        return Ok(false);
    }
    names.insert_all(model.devices.rows())
}

fn member_names_differ(alloc: Global, model: &ThinModel) -> Result<bool, NoMemory>
    ensures { IfOk result (λ differ. IsTrue differ ↔ Differ (map (λ s. s.name) model.now.subcomponents ++ map (λ c. c.name) model.now.connections)) }
{
    let mut names = NameSet::new(alloc);
    if !names.insert_all(model.subcomponents.rows())? {
        return Ok(false);
    }
    names.insert_all(model.connections.rows())
}
