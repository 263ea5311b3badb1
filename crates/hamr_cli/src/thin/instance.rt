//! The domains and ports of a model's instance.

ghost use Rattle.std.specs.Prelude.{◌≡◌, ◌≤◌, ◌<◌, ◌^◌, ◌++◌, length, map, IfOk, OnOk};
ghost use Rattle.hamr_cli.specs.Instance.{domain_of, size_of, is_out, port_of, is_declared, features_named, ports_from, origin_of, device_origin};

use crate::thin::device::Device;
use crate::thin::feature::{Feature, Way};
use crate::thin::subcomponent::Subcomponent;
use arch_model::{Kind, Origin, OriginList, Pd, PdId, PdList, Port, PortList, Role};
use hw_text::{ByteList, Name, NoMemory, Place, Rows, TextBuf};
use std::alloc::Global;

/// The place of Integer_32 among the types.
const INTEGER_TYPE: u32 = 3;

/// The domains that these subcomponents are.
pub fn domains(alloc: Global, subcomponents: &[Subcomponent]) -> Result<PdList, NoMemory>
    ensures { IfOk result (λ pds. pds ≡ map domain_of subcomponents.now) }
{
    let mut pds = Rows::new(alloc);
    for subcomponent in subcomponents {
        pds.push(domain(subcomponent)?)?;
    }
    Ok(pds)
}

fn domain(subcomponent: &Subcomponent) -> Result<Pd, NoMemory>
    ensures { IfOk result (λ pd. pd ≡ domain_of subcomponent.now) }
{
    Ok(Pd {
        name: subcomponent.name.copy()?,
        role: Role::Device,
        period: 0,
        upper: 0,
    })
}

/// Where these subcomponents come from.
pub fn origins(
    alloc: Global,
    package_name: &Name,
    subcomponents: &[Subcomponent],
) -> Result<OriginList, NoMemory>
    ensures { IfOk result (λ origins. origins ≡ map (origin_of package_name.now) subcomponents.now) }
{
    let mut origins = Rows::new(alloc);
    for _subcomponent in subcomponents {
        origins.push(origin(alloc, package_name)?)?;
    }
    Ok(origins)
}

/// Where a device comes from.
fn origin(alloc: Global, package_name: &Name) -> Result<Origin, NoMemory>
    ensures { IfOk result (λ origin. origin ≡ device_origin package_name.now) }
{
    let mut name = TextBuf::new(alloc);
    name.word(package_name.rows())?;
    Ok(Origin {
        package: name,
        thread: TextBuf::new(alloc),
        at: Place::START,
        has_annex: false,
        annex: ByteList::new(alloc),
        annex_at: Place::START,
    })
}

/// The ports of all domains.
pub fn ports_from(
    alloc: Global,
    devices: &[Device],
    subcomponents: &[Subcomponent],
) -> Result<PortList, NoMemory>
    requires { length subcomponents.now ≤ 60 }
    ensures { IfOk result (λ ports. ports ≡ ports_from devices.now 0 subcomponents.now) }
{
    let mut ports = Rows::new(alloc);
    let mut domain = 0;
    for subcomponent in subcomponents {
        let features = features_named(devices, subcomponent.device.rows());
        push_ports(&mut ports, PdId(domain), features)?;
        domain += 1;
    }
    Ok(ports)
}

/// Appends the ports that these features are in a domain.
fn push_ports(ports: &mut PortList, domain: PdId, features: &[Feature]) -> Result<(), NoMemory>
    ensures { OnOk result (ports.new ≡ ports.old ++ map (port_of domain) features.now) }
{
    for feature in features {
        ports.push(port(domain, feature)?)?;
    }
    Ok(())
}

fn port(domain: PdId, feature: &Feature) -> Result<Port, NoMemory>
    ensures { IfOk result (λ port. port ≡ port_of domain feature.now) }
{
    Ok(Port {
        owner: domain,
        name: feature.name.copy()?,
        outward: is_out(feature.way),
        kind: Kind::EventItem,
        ty: INTEGER_TYPE,
        size: size_of(feature.way),
        all: false,
    })
}

fn is_out(way: Way) -> bool
    ensures { result ≡ is_out way }
{
    match way {
        Way::Out => true,
        Way::In | Way::Queued(_) => false,
    }
}

/// Queue_Size, which is 1 where none is written.
pub fn size_of(way: Way) -> u32
    ensures { result ≡ size_of way }
{
    match way {
        Way::Out | Way::In => 1,
        Way::Queued(size) => size,
    }
}

pub fn is_declared(devices: &[Device], name: &[u8]) -> bool
    ensures { result ≡ is_declared devices.now name.now }
{
    for device in devices {
        if device.name.rows() == name {
            return true;
        }
    }
    false
}

/// The features of the first device type of this name.
fn features_named<'a>(devices: &'a [Device], name: &[u8]) -> &'a [Feature]
    ensures { result.now ≡ features_named devices.now name.now }
{
    for device in devices {
        if device.name.rows() == name {
            return device.features.rows();
        }
    }
    &[]
}
