//! A run of the services is the product of the runs of its parts.

ghost use Rattle.std.specs.Prelude.{◌↔◌, List, All};
ghost use Rattle.arch_model.specs.declared.parts.ArchParts.{ArchParts as AnyArch};
ghost use Rattle.rts_rules.specs.declared.event.Event.{Event as AnyEvent};
ghost use Rattle.rts_rules.specs.Run.{IsServiceRun};
ghost use Rattle.rts_rules.specs.Step.{IsEventOf};
ghost use Rattle.rts_laws.specs.Parts.{AreRunsOfParts};

/// Events are a run of the services exactly where each domain's own events are a run of its thread, and what
/// is released to and received at each port is a run of its queue.
pub fn runs_are_products()
    ensures { (arch : AnyArch) (events : List AnyEvent) → All (IsEventOf arch) events → (IsServiceRun arch events) ↔ (AreRunsOfParts arch events) }
{}
