//! Lines, one after another.

ghost use Rattle.std.specs.Prelude.{◌≡◌, ◌++◌, ◌∷◌, ℕ, List, IfOk, IfSome, IsSomeAnd, MatchResult};
ghost use Rattle.hamr_cli.specs.declared.trace.line.Line.{Line};
ghost use Rattle.hw_types.specs.declared.spot.Spot.{Spot};
ghost use Rattle.hamr_cli.specs.Trace.{FitsSpot, FitsTrace, IsTraceOf, IsFirstBadLine};
ghost use Rattle.hamr_cli.specs.TraceFault.{IsMemory, OnBadLine, GivesTrace, GivesBadLine};
ghost use Rattle.hamr_cli.specs.TraceText.{spot_text, line_text};

use crate::trace::events::read_what;
use crate::trace::fault::LineFault;
use crate::trace::names::read_device;
use crate::trace::numbers::number_of;
use crate::trace::words::{behind, field};
use crate::trace::{Line, Trace, TraceFault};
use arch_model::Arch;
use hw_types::Spot;
use rts_rules::Event;
use std::alloc::Global;

/// How many bytes a trace may have.
const LIMIT: usize = 67_108_864;

/// The first number that a slot may not have.
const SLOT_END: u64 = 1 << 32;

/// Frame and slot, and what stands behind the space that follows.
fn read_spot(bytes: &[u8]) -> Option<(Spot, &[u8])>
    ensures fits { IfSome result (λ r. FitsSpot r.0) }
    ensures found { IfSome result (λ r. bytes.now ≡ spot_text r.0 ++ r.1.now) }
    ensures only { (spot : Spot) (more : List ℕ) → FitsSpot spot
        → bytes.now ≡ spot_text spot ++ more
        → IsSomeAnd result (λ r. (r.0 ≡ spot) × (r.1.now ≡ more)) }
{
    let (frame, rest) = field(bytes)?;
    let (slot, rest) = field(rest)?;
    let frame = number_of(frame)?;
    let slot = number_of(slot)?;
    if slot >= SLOT_END {
        return None;
    }
    let spot = Spot {
        frame,
        slot: slot as u32,
    };
    Some((spot, rest))
}

/// The line in front, its line end too.
fn read_line<'a>(alloc: Global, arch: &Arch, bytes: &'a [u8]) -> Result<(Line, &'a [u8]), LineFault>
    ensures fits { IfOk result (λ r. FitsTrace arch.now r.0) }
    ensures found { IfOk result (λ r. bytes.now ≡ line_text arch.now r.0 ++ r.1.now) }
    ensures only { (line : Line) (more : List ℕ) → FitsTrace arch.now line
        → bytes.now ≡ line_text arch.now line ++ more
        → MatchResult result (λ r. (r.0 ≡ line) × (r.1.now ≡ more)) IsMemory }
{
    let Some((spot, rest)) = read_spot(bytes) else {
        return Err(LineFault::BadLine);
    };
    let Some((who, rest)) = read_device(arch, rest) else {
        return Err(LineFault::BadLine);
    };
    let (what, rest) = read_what(alloc, arch, who, rest)?;
    let event = Event { who, what };
    match behind(rest, b'\n') {
        Some(rest) => Ok((Line { spot, event }, rest)),
        None => Err(LineFault::BadLine),
    }
}

/// The lines that the text writes.
pub fn read_trace(alloc: Global, bytes: &[u8], arch: &Arch) -> Result<Trace, TraceFault>
    ensures found { IfOk result (λ lines. IsTraceOf arch.now bytes.now lines) }
    ensures only { (lines : List Line)
        → IsTraceOf arch.now bytes.now lines → GivesTrace result lines }
    ensures bad { OnBadLine result (λ number. IsFirstBadLine arch.now bytes.now number) }
    ensures bad_only { (number : ℕ)
        → IsFirstBadLine arch.now bytes.now number → GivesBadLine result number }
{
    if bytes.len() > LIMIT {
        return Err(TraceFault::BadLine(0));
    }
    let mut lines = Trace::new(alloc);
    let mut rest = bytes;
    while rest.len() > 0 {
        match read_line(alloc, arch, rest) {
            Ok((line, after)) => {
                lines.push(line)?;
                rest = after;
            }
            Err(LineFault::BadLine) => return Err(TraceFault::BadLine(lines.len() as u64 + 1)),
            Err(LineFault::NoMemory) => return Err(TraceFault::NoMemory),
        }
    }
    Ok(lines)
}
