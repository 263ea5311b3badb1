//! Why a command gives nothing of its own, and the line that tells it.

ghost use Rattle.std.specs.Prelude.{◌≡◌, IfOk};
ghost use Rattle.hamr_cli.specs.Cause.{report_of, words, refused, absent, read_fault, status_of_document};

use crate::{Report, Status};
use hw_text::{Document, NoMemory, Refusal, TextBuf};
use std::alloc::Global;

/// The words ask for nothing: `refused words`.
pub fn refused_words(alloc: Global) -> Result<Report, NoMemory>
    ensures { IfOk result (λ report. report ≡ report_of words) }
{
    let mut text = TextBuf::new(alloc);
    text.word(b"refused words")?;
    text.newline()?;
    Ok(Report {
        text,
        status: Status::Words,
    })
}

/// A text is not accepted: `refused FILE ..`.
pub fn refused_text(alloc: Global, file: &str, refusal: &Refusal) -> Result<Report, NoMemory>
    ensures { IfOk result (λ report. report ≡ report_of (refused file.now refusal.now)) }
{
    Ok(Report {
        text: refusal.line(alloc, file.as_bytes())?,
        status: document_status(refusal.code.document()),
    })
}

/// A file is not there: `refused FILE absent`.
pub fn absent_file(alloc: Global, file: &str) -> Result<Report, NoMemory>
    ensures { IfOk result (λ report. report ≡ report_of (absent file.now)) }
{
    let mut text = TextBuf::new(alloc);
    text.word(b"refused ")?;
    text.word(file.as_bytes())?;
    text.word(b" absent")?;
    text.newline()?;
    Ok(Report {
        text,
        status: Status::Absent,
    })
}

/// A file could not be read: `refused FILE read`.
pub fn unreadable_file(alloc: Global, file: &str) -> Result<Report, NoMemory>
    ensures { IfOk result (λ report. report ≡ report_of (read_fault file.now)) }
{
    let mut text = TextBuf::new(alloc);
    text.word(b"refused ")?;
    text.word(file.as_bytes())?;
    text.word(b" read")?;
    text.newline()?;
    Ok(Report {
        text,
        status: Status::ReadFault,
    })
}

/// The status of a text that is not accepted.
fn document_status(document: Document) -> Status
    ensures { result ≡ status_of_document document }
{
    match document {
        Document::Model | Document::Contract => Status::Model,
        Document::UserCode => Status::User,
        Document::Trace | Document::RunFile => Status::RunFile,
    }
}
