//! Values of ports, and tests of them.

ghost use Rattle.std.specs.Prelude.{◌≡◌, ◌↔◌, ◌<◌, IsTrue, IfOk, length};
ghost use Rattle.arch_model.specs.Values.{IsPortValue, zero_of};
ghost use Rattle.rts_rules.specs.Services.{is_data_port};
ghost use Rattle.rts_rules.specs.Thread.{has_item};

use arch_model::{Arch, Kind, Port, PortId};
use hw_text::NoMemory;
use hw_types::{Value, ValueList};
use std::alloc::Global;

/// Whether two values are the same.
pub fn same_value(one: &Value, other: &Value) -> bool
    ensures { IsTrue result ↔ (one.now ≡ other.now) }
{
    same_numbers(one.rows(), other.rows())
}

pub fn same_numbers(one: &[i128], other: &[i128]) -> bool
    ensures { IsTrue result ↔ (one.now ≡ other.now) }
{
    one == other
}

/// Whether the value is one that the port carries.
pub fn is_value_of_port(arch: &Arch, port: PortId, value: &Value) -> bool
    requires { port.0 < length arch.now.ports }
    ensures { IsTrue result ↔ IsPortValue arch.now port value.now }
{
    let port = &arch.ports()[port.0 as usize];
    let row = &arch.types()[port.ty as usize];
    row.layout.holds(value.rows())
}

pub fn has_item(items: &ValueList) -> bool
    ensures { result ≡ has_item items.now }
{
    !items.is_empty()
}

pub fn is_data_port(kind: Kind) -> bool
    ensures { result ≡ is_data_port kind }
{
    match kind {
        Kind::Sampled => true,
        Kind::Event | Kind::EventItem => false,
    }
}

/// The zero of a port's type.
pub fn zero_of(alloc: Global, arch: &Arch, port: &Port) -> Result<Value, NoMemory>
    requires { port.now.ty < length arch.now.types }
    ensures { IfOk result (λ value. value ≡ zero_of arch.now port.now) }
{
    let row = &arch.types()[port.ty as usize];
    let mut zero = Value::new(alloc);
    for _scalar in row.layout.scalars() {
        zero.push(0)?;
    }
    Ok(zero)
}
