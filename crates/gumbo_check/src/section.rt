//! Where a clause stands in its contract.

/// What a clause is said of (this project's own, after the sections of GUMBO).
#[derive(Clone, Copy, Debug, PartialEq, Eq)]
pub enum Section {
    /// What the domain may rely on at an in port.
    IntegrationAssume,
    /// What the domain keeps at an out port.
    IntegrationGuarantee,
    /// What holds once the thread is initialised.
    Initialise,
    /// What the thread may rely on when it computes.
    ComputeAssume,
    /// What holds once it has computed.
    ComputeGuarantee,
    /// What the handler of a port may rely on.
    HandlerAssume,
    /// What holds once a handler has run.
    HandlerGuarantee,
}
