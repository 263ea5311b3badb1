//! Architectures, and the service step over them.

ghost use Rattle.std.specs.Prelude.{◌<◌, length};

use crate::events::event_of;
use arch_model::{Arch, Port, PortId, Role};
use case_files::{Trouble, pieces, tell_line, tell_number};
use hw_text::{Name, NoMemory, TextBuf};
use rts_rules::{ServiceState, StepFault};
use std::alloc::Global;

/// The frame, and a line for each domain and each port.
pub fn tell_arch(arch: &Arch, out: &mut TextBuf) -> Result<(), NoMemory> {
    tell_number(out, b"frame", i128::from(arch.frame()))?;
    for (place, pd) in arch.pds().iter().enumerate() {
        out.word(b"domain ")?;
        out.number(place as i128)?;
        out.word(b": ")?;
        out.word(pd.name.rows())?;
        tell_line(
            out,
            match pd.role {
                Role::Device => b" device",
                Role::Periodic => b" periodic",
                Role::Sporadic => b" sporadic",
            },
        )?;
    }
    for (place, port) in arch.ports().iter().enumerate() {
        out.word(b"port ")?;
        out.number(place as i128)?;
        tell_port(arch, place, port, out)?;
    }
    Ok(())
}

/// What a port is, and the ports that receive what leaves it.
fn tell_port(arch: &Arch, place: usize, port: &Port, out: &mut TextBuf) -> Result<(), NoMemory>
    requires { place < length arch.now.ports }
{
    out.word(b" of domain ")?;
    out.number(i128::from(port.owner.0))?;
    out.word(if port.outward { b": out " } else { b": in " })?;
    out.word(port.name.rows())?;
    out.word(b" room ")?;
    out.number(i128::from(port.size))?;
    if let Ok(place) = u32::try_from(place) {
        for receiver in arch.receivers(PortId(place)) {
            out.word(b" to ")?;
            out.number(i128::from(receiver.0))?;
        }
    }
    out.newline()
}

/// The domain of each name, a name a line.
pub fn tell_names(
    alloc: Global,
    arch: &Arch,
    text: &[u8],
    out: &mut TextBuf,
) -> Result<(), Trouble> {
    for word in pieces(alloc, text, b'\n')?.rows() {
        let Ok(name) = Name::read(alloc, word.rows()) else {
            return Err(Trouble::BadLine);
        };
        match arch.pd_named(&name) {
            Some(who) => tell_number(out, b"domain", i128::from(who.0))?,
            None => tell_line(out, b"no domain")?,
        }
    }
    Ok(())
}

/// Whether each event is allowed, an event a line, where those before it that are were taken.
pub fn tell_events(
    alloc: Global,
    arch: &Arch,
    text: &[u8],
    out: &mut TextBuf,
) -> Result<(), Trouble> {
    let mut state = ServiceState::start(alloc, arch)?;
    for line in pieces(alloc, text, b'\n')?.rows() {
        let event = event_of(alloc, arch, line.rows())?;
        match state.step(alloc, arch, &event) {
            Ok(()) => out.word(b"allowed: ")?,
            Err(StepFault::Illegal(rule)) => {
                out.word(b"not by the rule of ")?;
                out.word(rule.word().as_bytes())?;
                out.word(b": ")?;
            }
            Err(StepFault::NoMemory) => return Err(Trouble::NoMemory),
        }
        tell_line(out, line.rows())?;
    }
    Ok(())
}
