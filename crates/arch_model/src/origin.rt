//! Where a domain comes from.

use hw_text::{ByteList, Place, Rows, TextBuf};

/// The thread type of a domain, and its contract.
#[derive(Debug, Drop)]
pub struct Origin {
    /// In lower case.
    pub package: TextBuf,
    /// The name of the thread type in lower case; empty for a device.
    pub thread: TextBuf,
    /// The place of that name in the model; 1:1 for a device.
    pub at: Place,
    pub has_annex: bool,
    /// The text of the contract; empty where there is none.
    pub annex: ByteList,
    /// The place of the first byte of that text in the model; 1:1 where there is none.
    pub annex_at: Place,
}

/// The origins of an architecture's domains, in their order.
pub type OriginList = Rows<Origin>;
