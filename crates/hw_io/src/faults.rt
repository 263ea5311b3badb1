//! Why bytes did not go out.

use thiserror::Error;

/// One write to a sink failed.
#[derive(Clone, Copy, Debug, PartialEq, Eq)]
pub struct SinkFault;

/// Why a whole text did not go out.
#[derive(Clone, Copy, Debug, PartialEq, Eq, Error)]
pub enum WriteFault {
    /// The sink failed on the way.
    #[error("the output failed")]
    Sink,
}

impl From<SinkFault> for WriteFault {
    fn from(_: SinkFault) -> Self {
        WriteFault::Sink
    }
}
