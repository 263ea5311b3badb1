//! Annexes.

use crate::annex_text::AnnexText;
use crate::names::Named;
use hw_text::Place;

/// An annex: its name, and a text in a language of its own, or `none`.
#[derive(Debug, Drop)]
pub struct Annex {
    pub name: Named,
    pub text: Option<AnnexText>,
    /// Where the text, with the braces around it, or `none` stands.
    pub text_place: Place,
}
