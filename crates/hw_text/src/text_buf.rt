//! Text that grows at its end.

ghost use Rattle.std.specs.Prelude.{◌≡◌, [], ◌∷◌, ◌++◌, IfOk, OnOk, OnErr};
ghost use Rattle.std.specs.Fmt.{signed_decimal};

use crate::NoMemory;
use std::alloc::Global;
use std::marker::Model;

/// The byte that ends a line (LF).
const LINE_FEED: u8 = 10;

/// Text in the making: what is to be printed, and the words that a refusal names.
#[derive(Debug, Drop)]
pub struct TextBuf {
    bytes: Vec<u8>,
}

impl Model for TextBuf {
    ghost use Rattle.std.specs.Prelude.{List, ℕ};

    ghost Value = { List ℕ };

    ghost view = { λ t. t.bytes.items };
}

impl TextBuf {
    /// The empty text, which takes no memory.
    pub fn new(alloc: Global) -> Self
        ensures { result ≡ [] }
    {
        TextBuf {
            bytes: Vec::new(alloc),
        }
    }

    pub fn rows(&self) -> &[u8]
        ensures { result.now ≡ self.now }
    {
        self.bytes.as_slice()
    }

    /// Appends exactly these bytes.
    pub fn word(&mut self, bytes: &[u8]) -> Result<(), NoMemory>
        ensures ok { OnOk result (self.new ≡ self.old ++ bytes.now) }
        ensures err { OnErr result (self.new ≡ self.old) }
    {
        self.bytes.extend_from_slice(bytes)?;
        Ok(())
    }

    /// Appends the decimal digits of a number, behind a `-` where it is negative.
    pub fn number(&mut self, n: i128) -> Result<(), NoMemory>
        ensures ok { OnOk result (self.new ≡ self.old ++ signed_decimal n) }
        ensures err { OnErr result (self.new ≡ self.old) }
    {
        let digits = n.to_string(*self.bytes.allocator())?;
        self.word(digits.as_bytes())
    }

    /// Appends a line end (LF).
    pub fn newline(&mut self) -> Result<(), NoMemory>
        ensures ok { OnOk result (self.new ≡ self.old ++ 10 ∷ []) }
        ensures err { OnErr result (self.new ≡ self.old) }
    {
        self.bytes.push(LINE_FEED)?;
        Ok(())
    }

    /// An equal text.
    pub fn copy(&self) -> Result<Self, NoMemory>
        ensures { IfOk result (λ copy. copy ≡ self.now) }
    {
        Ok(TextBuf {
            bytes: Vec::from_slice(*self.bytes.allocator(), self.rows())?,
        })
    }
}
