//! What leaves a queue in a run.

ghost use Rattle.std.specs.Prelude.{◌≡◌, ℤ, List, [], ◌∷◌, ◌++◌};
ghost use Rattle.rts_rules.specs.Queue.{Queue as AnyQueue};
ghost use Rattle.rts_laws.specs.Parts.{AtPort, Leaves, IsQueueRun};
ghost use Rattle.rts_laws.specs.Arrivals.{LeaveInOrder};

/// In each run of a queue that is empty at the start, what leaves it arrived before, in this order and without a gap;
/// where a receive takes all, nothing that arrived is newer.
pub fn received_in_order()
    ensures { (queue : AnyQueue) (before later : List AtPort) (items : List (List ℤ)) → queue.items ≡ [] → IsQueueRun queue (before ++ Leaves items ∷ later)
        → LeaveInOrder queue before items }
{}
