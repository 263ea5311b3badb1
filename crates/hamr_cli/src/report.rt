//! What is printed, with its status.

use crate::Status;
use hw_text::TextBuf;

/// The text that a call prints, and the status that goes with it once the text is out.
#[derive(Debug, Drop)]
pub struct Report {
    pub text: TextBuf,
    pub status: Status,
}
