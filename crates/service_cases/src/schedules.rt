//! Schedules, and sources of domains.

ghost use Rattle.std.specs.Prelude.{◌<◌, length};

use arch_model::{Arch, PdId};
use case_files::{Trouble, tell_number};
use domain_sched::schedule;
use flow_paths::sources;
use hw_text::{Fault, TextBuf};
use std::alloc::Global;

/// The length of each domain's slot, or why there is no schedule.
pub fn tell_schedule(alloc: Global, arch: &Arch, out: &mut TextBuf) -> Result<(), Trouble> {
    let frame = match schedule(alloc, arch) {
        Ok(frame) => frame,
        Err(Fault::Refused(refusal)) => {
            out.word(refusal.line(alloc, b"m")?.rows())?;
            return Ok(());
        }
        Err(Fault::NoMemory) => return Err(Trouble::NoMemory),
    };
    for slot in frame.slots().rows() {
        out.word(b"domain ")?;
        out.number(i128::from(slot.pd.0))?;
        tell_number(out, b":", i128::from(slot.length))?;
    }
    Ok(())
}

/// A line of the names of each domain's sources.
pub fn tell_all_sources(alloc: Global, arch: &Arch, out: &mut TextBuf) -> Result<(), Trouble> {
    for place in 0..arch.pds().len() {
        tell_sources(alloc, arch, PdId(place as u32), out)?;
    }
    Ok(())
}

/// The names of a domain's sources.
fn tell_sources(alloc: Global, arch: &Arch, who: PdId, out: &mut TextBuf) -> Result<(), Trouble>
    requires { who.0 < length arch.now.pds }
{
    let set = sources(alloc, arch, who)?;
    out.word(arch.pds()[who.0 as usize].name.rows())?;
    out.word(b":")?;
    for (other, pd) in arch.pds().iter().enumerate() {
        if set.has(PdId(other as u32)) {
            out.word(b" ")?;
            out.word(pd.name.rows())?;
        }
    }
    Ok(out.newline()?)
}
