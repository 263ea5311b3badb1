//! What a refusal speaks of, and what it tells beside its name.

/// The kind of text that a refusal speaks of. The exit status goes by it.
#[derive(Clone, Copy, Debug, PartialEq, Eq)]
pub enum Document {
    /// An architecture in AADL.
    Model,
    /// The contract annex of a thread, in the model's file.
    Contract,
    /// The C of a domain.
    UserCode,
    /// A recorded trace.
    Trace,
    /// The description of a run.
    RunFile,
}

/// Which parts of a refusal stand behind its name.
#[derive(Clone, Copy, Debug, PartialEq, Eq)]
pub enum Detail {
    /// Nothing.
    None,
    /// The word.
    Word,
    /// The number in `low`.
    Number,
    /// The numbers in `low` and `high`.
    Bounds,
    /// The numbers in `low`, `high` and `length`.
    BoundsAndLength,
    /// The word, and the numbers in `low` (counted) and `high` (allowed).
    Count,
}
