//! What the devices of a trace do.

ghost use Rattle.std.specs.Prelude.{◌≡◌, ◌++◌, ◌∷◌, ℕ, ℤ, List, true, false, IfOk, MatchResult};
ghost use Rattle.rts_rules.specs.declared.event.What.{What};
ghost use Rattle.hamr_cli.specs.Trace.{FitsReceive, FitsRelease, FitsWhat};
ghost use Rattle.hamr_cli.specs.TraceFault.{IsMemory};
ghost use Rattle.hamr_cli.specs.TraceText.{port_name, list_text, value_text, what_text};
ghost use Rattle.hamr_cli.specs.TraceWord.{EndsWord};

use crate::trace::fault::LineFault;
use crate::trace::names::read_port;
use crate::trace::values::{read_list, read_value};
use crate::trace::words::field;
use arch_model::{Arch, PdId, PortId};
use hw_types::{Value, ValueList};
use rts_rules::What;
use std::alloc::Global;

const RELEASE: &[u8] = b"release";

const RECEIVE: &[u8] = b"receive";

/// A port and the value that leaves it.
fn read_release<'a>(
    alloc: Global,
    arch: &Arch,
    who: PdId,
    bytes: &'a [u8],
) -> Result<(PortId, Value, &'a [u8]), LineFault>
    ensures fits { IfOk result (λ r. FitsRelease arch.now who r.0 r.1) }
    ensures found { IfOk result (λ r.
        bytes.now ≡ port_name arch.now r.0 ++ 32 ∷ (value_text r.1 ++ r.2.now)) }
    ensures only { (port : PortId) (value : List ℤ) (more : List ℕ)
        → FitsRelease arch.now who port value → EndsWord more
        → bytes.now ≡ port_name arch.now port ++ 32 ∷ (value_text value ++ more)
        → MatchResult result (λ r. (r.0 ≡ port) × (r.1 ≡ value) × (r.2.now ≡ more)) IsMemory }
{
    let Some((port, rest)) = read_port(arch, who, true, bytes) else {
        return Err(LineFault::BadLine);
    };
    let (value, rest) = read_value(alloc, rest)?;
    Ok((port, value, rest))
}

/// A port and the values that are taken from it.
fn read_receive<'a>(
    alloc: Global,
    arch: &Arch,
    who: PdId,
    bytes: &'a [u8],
) -> Result<(PortId, ValueList, &'a [u8]), LineFault>
    ensures fits { IfOk result (λ r. FitsReceive arch.now who r.0 r.1) }
    ensures found { IfOk result (λ r.
        bytes.now ≡ port_name arch.now r.0 ++ 32 ∷ (list_text r.1 ++ r.2.now)) }
    ensures only { (port : PortId) (values : List (List ℤ)) (more : List ℕ)
        → FitsReceive arch.now who port values
        → bytes.now ≡ port_name arch.now port ++ 32 ∷ (list_text values ++ more)
        → MatchResult result (λ r. (r.0 ≡ port) × (r.1 ≡ values) × (r.2.now ≡ more)) IsMemory }
{
    let Some((port, rest)) = read_port(arch, who, false, bytes) else {
        return Err(LineFault::BadLine);
    };
    let (values, rest) = read_list(alloc, rest)?;
    Ok((port, values, rest))
}

/// What the device does, by the words in front.
pub fn read_what<'a>(
    alloc: Global,
    arch: &Arch,
    who: PdId,
    bytes: &'a [u8],
) -> Result<(What, &'a [u8]), LineFault>
    ensures fits { IfOk result (λ r. FitsWhat arch.now who r.0) }
    ensures found { IfOk result (λ r. bytes.now ≡ what_text arch.now r.0 ++ r.1.now) }
    ensures only { (act : What) (more : List ℕ) → FitsWhat arch.now who act → EndsWord more
        → bytes.now ≡ what_text arch.now act ++ more
        → MatchResult result (λ r. (r.0 ≡ act) × (r.1.now ≡ more)) IsMemory }
{
    let Some((word, rest)) = field(bytes) else {
        return Err(LineFault::BadLine);
    };
    if word == RELEASE {
        let (port, value, rest) = read_release(alloc, arch, who, rest)?;
        return Ok((What::Release(port, value), rest));
    }
    if word == RECEIVE {
        let (port, values, rest) = read_receive(alloc, arch, who, rest)?;
        return Ok((What::Receive(port, values), rest));
    }
    Err(LineFault::BadLine)
}
