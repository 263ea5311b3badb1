//! A refusal, and the line that tells it.

ghost use Rattle.std.specs.Prelude.{◌≡◌, ◌∷◌, ◌++◌, List, ℕ, [], codes, pos, IfOk, OnOk};
ghost use Rattle.hw_text.specs.Refusal.{refusal_line, place_text, detail_text, spaced_word, spaced_number};

use crate::{Code, Detail, Document, NoMemory, Place, TextBuf};
use std::alloc::Global;

/// Why a text is not accepted: the cause, where it stands, and what it speaks of. Parts that the
/// code does not use are empty or 0 (this project's own).
#[derive(Debug, Drop)]
pub struct Refusal {
    pub code: Code,
    /// 0:0 where the code prints no place.
    pub place: Place,
    pub word: TextBuf,
    pub low: i128,
    pub high: i128,
    pub length: i128,
}

impl Refusal {
    /// The refusal of a model that this version does not read.
    pub fn not_built(alloc: Global) -> Self
        ensures code { result.code ≡ Code.ModelNotBuilt }
        ensures place { result.place ≡ record { line = 1; column = 1 } }
        ensures word { result.word ≡ [] }
        ensures low { result.low ≡ pos 0 }
        ensures high { result.high ≡ pos 0 }
        ensures length { result.length ≡ pos 0 }
        ensures line { (file : List ℕ) → refusal_line file result ≡ codes "refused " ++ file ++ codes " 1:1 NotBuilt" ++ 10 ∷ [] }
    {
        Refusal {
            code: Code::ModelNotBuilt,
            place: Place::START,
            word: TextBuf::new(alloc),
            low: 0,
            high: 0,
            length: 0,
        }
    }

    /// The refusal of a line of a trace, or of a record of a run file, by its number. It has no place.
    pub fn numbered(alloc: Global, code: Code, number: u64) -> Self
        ensures code { result.code ≡ code }
        ensures place { result.place ≡ record { line = 0; column = 0 } }
        ensures word { result.word ≡ [] }
        ensures low { result.low ≡ pos number }
        ensures high { result.high ≡ pos 0 }
        ensures length { result.length ≡ pos 0 }
    {
        Refusal {
            code,
            place: Place::NONE,
            word: TextBuf::new(alloc),
            low: i128::from(number),
            high: 0,
            length: 0,
        }
    }

    /// The line that tells the refusal of a file: `refused FILE L:C NAME DETAIL`, without the
    /// place for a trace or a run file.
    pub fn line(&self, alloc: Global, file: &[u8]) -> Result<TextBuf, NoMemory>
        ensures { IfOk result (λ line. line ≡ refusal_line file.now self.now) }
    {
        let mut line = TextBuf::new(alloc);
        line.word(b"refused ")?;
        line.word(file)?;
        self.print_place(&mut line)?;
        spaced(&mut line, self.code.name().as_bytes())?;
        self.print_detail(&mut line)?;
        line.newline()?;
        Ok(line)
    }

    fn print_place(&self, line: &mut TextBuf) -> Result<(), NoMemory>
        ensures { OnOk result (line.new ≡ line.old ++ place_text self.now) }
    {
        match self.code.document() {
            Document::Model | Document::Contract | Document::UserCode => {
                spaced_count(line, i128::from(self.place.line))?;
                line.word(b":")?;
                line.number(i128::from(self.place.column))
            }
            Document::Trace | Document::RunFile => Ok(()),
        }
    }

    fn print_detail(&self, line: &mut TextBuf) -> Result<(), NoMemory>
        ensures { OnOk result (line.new ≡ line.old ++ detail_text self.now) }
    {
        match self.code.detail() {
            Detail::None => Ok(()),
            Detail::Word => spaced(line, self.word.rows()),
            Detail::Number => spaced_count(line, self.low),
            Detail::Bounds => {
                spaced_count(line, self.low)?;
                spaced_count(line, self.high)
            }
            Detail::BoundsAndLength => {
                spaced_count(line, self.low)?;
                spaced_count(line, self.high)?;
                spaced_count(line, self.length)
            }
            Detail::Count => {
                spaced(line, self.word.rows())?;
                spaced_count(line, self.low)?;
                spaced_count(line, self.high)
            }
        }
    }
}

/// Appends a word behind a space; for an empty word nothing.
fn spaced(line: &mut TextBuf, word: &[u8]) -> Result<(), NoMemory>
    ensures { OnOk result (line.new ≡ line.old ++ spaced_word word.now) }
{
    if word.is_empty() {
        return Ok(());
    }
    line.word(b" ")?;
    line.word(word)
}

/// Appends a number behind a space.
fn spaced_count(line: &mut TextBuf, number: i128) -> Result<(), NoMemory>
    ensures { OnOk result (line.new ≡ line.old ++ spaced_number number) }
{
    line.word(b" ")?;
    line.number(number)
}
