//! Events as text: `DOMAIN WORD`, with a port and numbers behind it where the word speaks of one.

ghost use Rattle.std.specs.Prelude.{◌≡◌, ◌<◌, length, IfOk};
ghost use Rattle.arch_model.specs.declared.parts.ArchParts.{ArchParts};
ghost use Rattle.rts_rules.specs.Step.{IsEventOf, NamesPorts};

use arch_model::{Arch, PdId, PortId};
use case_files::{Trouble, number, pieces};
use hw_text::{ByteList, Rows};
use hw_types::{Value, ValueList};
use rts_rules::{Event, What};
use std::alloc::Global;

/// The event that a line writes.
pub fn event_of(alloc: Global, arch: &Arch, line: &[u8]) -> Result<Event, Trouble>
    ensures { IfOk result (λ event. IsEventOf arch.now event) }
{
    let words = pieces(alloc, line, b' ')?;
    match words.rows() {
        [domain, word] => Ok(Event {
            who: domain_of(arch, domain.rows())?,
            what: alone(word.rows())?,
        }),
        [domain, word, name, numbers @ ..] => {
            let who = domain_of(arch, domain.rows())?;
            let port = port_of(arch, who, name.rows())?;
            let what = at_port(alloc, arch, word.rows(), port, numbers)?;
            Ok(Event { who, what })
        }
        _ => Err(Trouble::BadLine),
    }
}

/// What a domain does where no port has a part in it.
fn alone(word: &[u8]) -> Result<What, Trouble>
    ensures { IfOk result (λ what. (arch : ArchParts) → NamesPorts arch what) }
{
    match word {
        b"tick" => Ok(What::Tick),
        b"init" => Ok(What::Init),
        b"begin" => Ok(What::Begin),
        b"void" => Ok(What::Void),
        b"compute" => Ok(What::Compute),
        b"send" => Ok(What::Send),
        b"end" => Ok(What::End),
        b"verdict" => Ok(What::Verdict(0, true)),
        _ => Err(Trouble::BadLine),
    }
}

/// What a domain does at a port, with these numbers: one for each item that is received, or those of
/// one value.
fn at_port(
    alloc: Global,
    arch: &Arch,
    word: &[u8],
    port: PortId,
    numbers: &[ByteList],
) -> Result<What, Trouble>
    requires { port.0 < length arch.now.ports }
    ensures { IfOk result (λ what. NamesPorts arch.now what) }
{
    match word {
        b"receive" => Ok(What::Receive(port, items(alloc, numbers)?)),
        b"put" => Ok(What::Put(port, value(alloc, numbers)?)),
        b"release" => Ok(What::Release(port, value(alloc, numbers)?)),
        _ => Err(Trouble::BadLine),
    }
}

/// One item for each word: a number, or `*` where it has none.
fn items(alloc: Global, words: &[ByteList]) -> Result<ValueList, Trouble> {
    let mut items = Rows::new(alloc);
    for word in words {
        let mut item = Value::new(alloc);
        if word.rows() != b"*".as_slice() {
            item.push(integer(word)?)?;
        }
        items.push(item)?;
    }
    Ok(items)
}

/// The value of these numbers.
fn value(alloc: Global, numbers: &[ByteList]) -> Result<Value, Trouble> {
    let mut value = Value::new(alloc);
    for digits in numbers {
        value.push(integer(digits)?)?;
    }
    Ok(value)
}

fn integer(digits: &ByteList) -> Result<i128, Trouble> {
    match number(digits.rows()) {
        Some(number) => Ok(number),
        None => Err(Trouble::BadLine),
    }
}

/// The domain of this name.
fn domain_of(arch: &Arch, name: &[u8]) -> Result<PdId, Trouble>
    ensures { IfOk result (λ who. who.0 < length arch.now.pds) }
{
    for (place, pd) in arch.pds().iter().enumerate() {
        if pd.name.rows() == name {
            return Ok(PdId(number_of(place)?));
        }
    }
    Err(Trouble::BadLine)
}

/// The port of a domain with this name.
fn port_of(arch: &Arch, who: PdId, name: &[u8]) -> Result<PortId, Trouble>
    ensures { IfOk result (λ port. port.0 < length arch.now.ports) }
{
    for (place, port) in arch.ports().iter().enumerate() {
        if port.owner == who && port.name.rows() == name {
            return Ok(PortId(number_of(place)?));
        }
    }
    Err(Trouble::BadLine)
}

/// A place as a number of 32 bits.
fn number_of(place: usize) -> Result<u32, Trouble>
    ensures { IfOk result (λ number. number ≡ place) }
{
    match u32::try_from(place) {
        Ok(number) => Ok(number),
        Err(_) => Err(Trouble::BadLine),
    }
}
