//! Thin models: what is asked of them beyond their form, and their instances.

pub mod checks;
pub mod connection;
pub mod device;
pub mod feature;
pub mod heading;
mod instance;
mod links;
pub mod model;
mod name_set;
pub mod subcomponent;

ghost use Rattle.std.specs.Prelude.{◌≡◌, IfOk, IfSome, Some};
ghost use Rattle.hamr_cli.specs.Instance.{instance_of};
ghost use Rattle.hamr_cli.specs.Model.{HasThinShape, IsThinModel};

use crate::thin::instance::{domains, origins, ports_from};
use crate::thin::links::joined;
use crate::thin::model::ThinModel;
use arch_model::{Arch, ArchParts, base_rows};
use hw_text::NoMemory;
use std::alloc::Global;

/// The frame period of a model that sets none, in picoseconds: 1 ms.
const DEFAULT_FRAME: u64 = 1_000_000_000;

/// The instance of a model, where its connections fit.
pub fn instance_of(alloc: Global, model: &ThinModel) -> Result<Option<Arch>, NoMemory>
    requires { HasThinShape model.now }
    ensures found { IfOk result (λ found. IfSome found (λ arch. IsThinModel model.now × (arch ≡ instance_of model.now))) }
    ensures only { IsThinModel model.now → IfOk result (λ found. found ≡ Some (instance_of model.now)) }
{
    let pds = domains(alloc, model.subcomponents.rows())?;
    let ports = ports_from(alloc, model.devices.rows(), model.subcomponents.rows())?;
    let Some(links) = joined(alloc, pds.rows(), ports.rows(), model.connections.rows())? else {
        return Ok(None);
    };
    let types = base_rows(alloc)?;
    let origins = origins(alloc, &model.package_name, model.subcomponents.rows())?;
    let parts = ArchParts {
        pds,
        ports,
        links,
        types,
        frame: DEFAULT_FRAME,
        origins,
    };
    Ok(Some(Arch::new(alloc, parts)?))
}
