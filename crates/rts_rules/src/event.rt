//! What happens at the ports of a system.

ghost use Rattle.std.specs.Prelude.{◌≡◌};

use crate::Rule;
use arch_model::{PdId, PortId};
use hw_types::{Value, ValueList};

/// An event: a domain, and what it does (this project's own, after the run-time services of AADL).
#[derive(Debug, Drop)]
pub struct Event {
    pub who: PdId,
    pub what: What,
}

/// What a domain does.
#[derive(Debug, Drop)]
pub enum What {
    /// The period of a thread begins.
    Tick,
    /// The thread is initialised.
    Init,
    /// A dispatch begins.
    Begin,
    /// A dispatch finds nothing that arrived.
    Void,
    /// The thread computes.
    Compute,
    /// The thread begins to send.
    Send,
    /// The dispatch ends.
    End,
    /// These items are taken from the queue of an in port, the oldest first.
    Receive(PortId, ValueList),
    /// An out port is given a value to hold.
    Put(PortId, Value),
    /// A value leaves an out port.
    Release(PortId, Value),
    /// A clause of the contract, by its number, is judged.
    Verdict(u32, bool),
}

impl What {
    ghost use Rattle.rts_rules.specs.Rule.{rule_of};

    /// The rule that speaks of such an event.
    pub fn rule(&self) -> Rule
        ensures { result ≡ rule_of self.now }
    {
        match self {
            What::Tick => Rule::Tick,
            What::Init => Rule::Init,
            What::Begin => Rule::Begin,
            What::Void => Rule::Void,
            What::Compute => Rule::Compute,
            What::Send => Rule::Send,
            What::End => Rule::End,
            What::Receive(..) => Rule::Receive,
            What::Put(..) => Rule::Put,
            What::Release(..) => Rule::Release,
            What::Verdict(..) => Rule::Verdict,
        }
    }
}
