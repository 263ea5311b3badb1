//! When a thread sends in a run.

ghost use Rattle.std.specs.Prelude.{◌≡◌, ℤ, List, ◌∷◌, ◌++◌};
ghost use Rattle.arch_model.specs.declared.parts.ArchParts.{ArchParts as AnyArch};
ghost use Rattle.arch_model.specs.declared.id.PdId.{PdId as AnyPdId};
ghost use Rattle.arch_model.specs.declared.id.PortId.{PortId as AnyPortId};
ghost use Rattle.rts_rules.specs.declared.event.Event.{Event as AnyEvent};
ghost use Rattle.rts_rules.specs.declared.event.What.TheVariants.{Release};
ghost use Rattle.rts_rules.specs.Services.{opening_thread};
ghost use Rattle.rts_laws.specs.Parts.{IsThreadRun};
ghost use Rattle.rts_laws.specs.Sending.{IsThread, IsSending};

/// In each run of a thread a release stands behind a `send`, with no `end` between.
pub fn sent_while_sending()
    ensures { (arch : AnyArch) (who : AnyPdId) (before later : List AnyEvent) (event : AnyEvent) (port : AnyPortId) (value : List ℤ) → IsThread arch who
        → event.what ≡ Release port value → IsThreadRun arch who (opening_thread arch who) (before ++ event ∷ later) → IsSending before }
{}
