//! Names and classifiers as text, as refusals and notes tell them.

ghost use Rattle.std.specs.Prelude.{◌≡◌, ◌∷◌, ◌++◌, IfOk, OnOk};
ghost use Rattle.aadl_tree.specs.References.{parted, last_of, dotted, qualified_text, last_name, path_text, implementation_text, end_text, class_text, type_name, prefix_text};

use crate::class::{Class, ModelClass};
use crate::connection::ConnectionEnd;
use crate::names::{ImplementationName, Path, QualifiedName};
use hw_text::{Name, NoMemory, TextBuf};
use std::alloc::Global;

impl QualifiedName {
    /// The whole name, as `data_model::enumerators`.
    pub fn text(&self, alloc: Global) -> Result<TextBuf, NoMemory>
        ensures { IfOk result (λ text. text ≡ qualified_text self.now) }
    {
        parted(alloc, &self.first.name, b"::", self.others.rows())
    }

    /// The last of the names, as `enumerators` of `data_model::enumerators`.
    pub fn last(&self) -> &Name
        ensures { result.now ≡ last_name self.now }
    {
        last_of(&self.first.name, self.others.rows())
    }
}

impl Path {
    /// The whole path, as `plant.pump.on`.
    pub fn text(&self, alloc: Global) -> Result<TextBuf, NoMemory>
        ensures { IfOk result (λ text. text ≡ path_text self.now) }
    {
        parted(alloc, &self.first.name, b".", self.others.rows())
    }
}

impl ImplementationName {
    /// The whole name, as `pump.i`.
    pub fn text(&self, alloc: Global) -> Result<TextBuf, NoMemory>
        ensures { IfOk result (λ text. text ≡ implementation_text self.now) }
    {
        let mut text = TextBuf::new(alloc);
        text.word(self.component_type.name.rows())?;
        push_behind(&mut text, b".", &self.name)?;
        Ok(text)
    }
}

impl ConnectionEnd {
    /// The whole end, as `pump.on`, or `on`.
    pub fn text(&self, alloc: Global) -> Result<TextBuf, NoMemory>
        ensures { IfOk result (λ text. text ≡ end_text self.now) }
    {
        let mut text = TextBuf::new(alloc);
        text.word(self.first.name.rows())?;
        push_dotted(&mut text, &self.port)?;
        Ok(text)
    }
}

impl Class {
    /// The whole classifier, as `base_types::integer_32`, or `plant::pump.i`.
    pub fn text(&self, alloc: Global) -> Result<TextBuf, NoMemory>
        ensures { IfOk result (λ text. text ≡ class_text self.now) }
    {
        match self {
            Class::Base(_, base) => {
                let mut text = TextBuf::new(alloc);
                text.word(b"base_types::")?;
                text.word(base.name().as_bytes())?;
                Ok(text)
            }
            Class::Model(own) => {
                let mut text = parted(alloc, &own.first.name, b"::", own.others.rows())?;
                push_dotted(&mut text, &own.implementation)?;
                Ok(text)
            }
        }
    }
}

impl ModelClass {
    /// The name of the type, as `pump` of `plant::pump.i`.
    pub fn type_name(&self) -> &Name
        ensures { result.now ≡ type_name self.now }
    {
        last_of(&self.first.name, self.others.rows())
    }

    /// The names before that of the type, as `plant` of `plant::pump.i`; with none it is empty.
    #[tactic(auto, using(crate::proofs::LastNames::without_only, crate::proofs::LastNames::without_pushed))]
    pub fn prefix(&self, alloc: Global) -> Result<TextBuf, NoMemory>
        ensures { IfOk result (λ text. text ≡ prefix_text self.now) }
    {
        match self.others.rows().split_last() {
            Some((_, others)) => parted(alloc, &self.first.name, b"::", others),
            None => Ok(TextBuf::new(alloc)),
        }
    }
}

/// The last of a name and others behind it.
#[tactic(auto, using(crate::proofs::LastNames::last_only, crate::proofs::LastNames::last_pushed))]
fn last_of<'a>(first: &'a Name, others: &'a [Name]) -> &'a Name
    ensures { result.now ≡ last_of first.now others.now }
{
    match others.split_last() {
        Some((last, _)) => last,
        None => first,
    }
}

/// A name and others behind it, with the mark between them.
fn parted(alloc: Global, first: &Name, mark: &[u8], others: &[Name]) -> Result<TextBuf, NoMemory>
    ensures { IfOk result (λ text. text ≡ parted mark.now (first.now ∷ others.now)) }
{
    let mut text = TextBuf::new(alloc);
    text.word(first.rows())?;
    for name in others {
        push_behind(&mut text, mark, name)?;
    }
    Ok(text)
}

/// Appends the name, where there is one, behind a dot.
fn push_dotted(text: &mut TextBuf, name: &Option<Name>) -> Result<(), NoMemory>
    ensures { OnOk result (text.new ≡ text.old ++ dotted name.now) }
{
    match name {
        Some(name) => push_behind(text, b".", name),
        None => Ok(()),
    }
}

/// Appends the mark and the name.
fn push_behind(text: &mut TextBuf, mark: &[u8], name: &Name) -> Result<(), NoMemory>
    ensures { OnOk result (text.new ≡ text.old ++ mark.now ++ name.now) }
{
    text.word(mark)?;
    text.word(name.rows())
}
