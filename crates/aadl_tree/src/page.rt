//! Laying out tokens on lines.

ghost use Rattle.std.specs.Prelude.{◌≡◌, ◌++◌, [], true, OnOk};
ghost use Rattle.aadl_tree.specs.declared.page.Margin.{Margin};
ghost use Rattle.aadl_tree.specs.declared.page.Margin.TheVariants.{LineStart};
ghost use Rattle.aadl_tree.specs.declared.token.Token.TheVariants as token;
ghost use Rattle.aadl_tree.specs.Layout.{word_begins_line, word_ends_line, is_semicolon, is_tight, is_close, gap_text, line_end, margin_of, with_token, written};
ghost use Rattle.aadl_tree.specs.Allowed.{IsAllowed};
ghost use Rattle.aadl_tree.specs.Canonical.{base_tokens};

use crate::annex_text::AnnexText;
use crate::integer::Integer;
use crate::mark::Mark;
use crate::quoted::Quoted;
use crate::real::Real;
use crate::word::Word;
use hw_text::{BaseType, Name, NoMemory, TextBuf};
use std::alloc::Global;
use std::marker::Model;

/// Where the next token stands.
#[derive(Clone, Copy, Debug, PartialEq, Eq)]
pub enum Margin {
    LineStart,
    /// Behind a token on its line.
    Loose,
    /// Behind a token that nothing parts from the next.
    Tight,
}

/// A canonical text in the making.
#[derive(Debug, Drop)]
pub struct Page {
    text: TextBuf,
    margin: Margin,
}

impl Model for Page {
    ghost use Rattle.std.specs.Prelude.{true};
    ghost use Rattle.aadl_tree.specs.Sheet.{Sheet};

    ghost Value = { Sheet };

    ghost view = { λ p. record { text = p.text; margin = p.margin; sound = true } };
}

#[tactic(auto, unfolding(crate::specs::Layout::with_token))]
impl Page {
    pub fn new(alloc: Global) -> Page
        ensures { result ≡ record { text = []; margin = LineStart; sound = true } }
    {
        Page {
            text: TextBuf::new(alloc),
            margin: Margin::LineStart,
        }
    }

    pub fn into_text(self) -> TextBuf
        ensures text { result ≡ self.text }
        ensures sound { self.sound ≡ true }
    {
        let Page { text, .. } = self;
        text
    }

    pub fn word(&mut self, word: Word) -> Result<(), NoMemory>
        ensures { OnOk result (self.new ≡ with_token self.old (token.Word word)) }
    {
        self.part(begins_line(word), false)?;
        self.text.word(word.spelling().as_bytes())?;
        self.leave(ends_line(word), false)
    }

    pub fn mark(&mut self, mark: Mark) -> Result<(), NoMemory>
        ensures { OnOk result (self.new ≡ with_token self.old (token.Mark mark)) }
    {
        self.part(false, is_close(mark))?;
        self.text.word(mark.spelling().as_bytes())?;
        self.leave(is_semicolon(mark), is_tight(mark))
    }

    pub fn name(&mut self, name: &Name) -> Result<(), NoMemory>
        ensures { OnOk result (self.new ≡ with_token self.old (token.Name name.now)) }
    {
        self.plain(name.rows())
    }

    pub fn integer(&mut self, integer: &Integer) -> Result<(), NoMemory>
        ensures { OnOk result (self.new ≡ with_token self.old (token.Integer integer.now)) }
    {
        self.part(false, false)?;
        self.text.number(integer.value() as i128)?;
        self.leave(false, false)
    }

    pub fn real(&mut self, real: &Real) -> Result<(), NoMemory>
        ensures { OnOk result (self.new ≡ with_token self.old (token.Real real.now)) }
    {
        self.part(false, false)?;
        self.text.word(real.rows())?;
        self.leave(false, false)
    }

    pub fn quoted(&mut self, text: &Quoted) -> Result<(), NoMemory>
        ensures { OnOk result (self.new ≡ with_token self.old (token.Text text.now)) }
    {
        self.part(false, false)?;
        self.text.word(b"\"")?;
        self.text.word(text.rows())?;
        self.text.word(b"\"")?;
        self.leave(false, false)
    }

    pub fn annex(&mut self, text: &AnnexText) -> Result<(), NoMemory>
        ensures { OnOk result (self.new ≡ with_token self.old (token.Annex text.now)) }
    {
        self.part(false, false)?;
        self.text.word(b"{**")?;
        self.text.word(text.rows())?;
        self.text.word(b"**}")?;
        self.leave(false, false)
    }

    pub fn base_type(&mut self, base: BaseType) -> Result<(), NoMemory>
        ensures { OnOk result (self.new ≡ written self.old (base_tokens base)) }
    {
        self.plain(b"base_types")?;
        self.mark(Mark::DoubleColon)?;
        self.plain(base.name().as_bytes())
    }

    /// Appends a name.
    fn plain(&mut self, name: &[u8]) -> Result<(), NoMemory>
        requires { IsAllowed (token.Name name.now) }
        ensures { OnOk result (self.new ≡ with_token self.old (token.Name name.now)) }
    {
        self.part(false, false)?;
        self.text.word(name)?;
        self.leave(false, false)
    }

    /// Appends what stands before a token.
    fn part(&mut self, begins_line: bool, is_close: bool) -> Result<(), NoMemory>
        ensures { OnOk result (self.new ≡ record self.old { text = self.old.text ++ gap_text self.old.margin begins_line is_close }) }
    {
        match self.margin {
            Margin::LineStart => Ok(()),
            _ if begins_line => self.text.newline(),
            Margin::Loose if !is_close => self.text.word(b" "),
            _ => Ok(()),
        }
    }

    /// Appends what stands behind a token.
    fn leave(&mut self, ends_line: bool, is_tight: bool) -> Result<(), NoMemory>
        ensures left { OnOk result (self.new ≡ record self.old { text = self.old.text ++ line_end ends_line; margin = margin_of ends_line is_tight }) }
        ensures sound { OnOk result (self.old.sound ≡ true) }
    {
        if ends_line {
            self.text.newline()?;
            self.margin = Margin::LineStart;
        } else if is_tight {
            self.margin = Margin::Tight;
        } else {
            self.margin = Margin::Loose;
        }
        Ok(())
    }
}

/// Whether a line ends before the word.
fn begins_line(word: Word) -> bool
    ensures { result ≡ word_begins_line word }
{
    match word {
        Word::Features
        | Word::Subcomponents
        | Word::Connections
        | Word::Properties
        | Word::Annex
        | Word::End => true,
        _ => false,
    }
}

/// Whether a line ends behind the word.
fn ends_line(word: Word) -> bool
    ensures { result ≡ word_ends_line word }
{
    match word {
        Word::Public
        | Word::Features
        | Word::Subcomponents
        | Word::Connections
        | Word::Properties => true,
        _ => false,
    }
}

fn is_semicolon(mark: Mark) -> bool
    ensures { result ≡ is_semicolon mark }
{
    match mark {
        Mark::Semicolon => true,
        _ => false,
    }
}

/// Whether the mark has no space on either side.
fn is_tight(mark: Mark) -> bool
    ensures { result ≡ is_tight mark }
{
    match mark {
        Mark::DoubleColon | Mark::Dot => true,
        _ => false,
    }
}

/// Whether the mark has no space before it.
fn is_close(mark: Mark) -> bool
    ensures { result ≡ is_close mark }
{
    match mark {
        Mark::Semicolon | Mark::Comma | Mark::DoubleColon | Mark::Dot => true,
        _ => false,
    }
}
