//! Printing state variables and their types.

ghost use Rattle.std.specs.Prelude.{◌≡◌, ◌++◌, IfOk, OnOk};
ghost use Rattle.std.specs.List.{flat_map};
ghost use Rattle.gumbo_parse.specs.Allowed.{AreAllowed};
ghost use Rattle.gumbo_parse.specs.Classes.{base_text, behind_colons, implementation_text, class_text, variable_text};
ghost use Rattle.gumbo_parse.specs.ContractTokens.{step_tokens, implementation_tokens, class_tokens, variable_tokens};

use crate::annex::print_line;
use crate::class::{Class, Variable};
use crate::identifier::Identifier;
use hw_text::{BaseType, NoMemory, TextBuf};
use std::alloc::Global;

pub fn print_variables(out: &mut TextBuf, variables: &[Variable]) -> Result<(), NoMemory>
    ensures text { OnOk result (out.new ≡ out.old ++ flat_map variable_text variables.now) }
    ensures allowed { OnOk result (AreAllowed (flat_map variable_tokens variables.now)) }
{
    for variable in variables {
        variable.print(out)?;
    }
    Ok(())
}

impl Variable {
    pub fn print(&self, out: &mut TextBuf) -> Result<(), NoMemory>
        ensures text { OnOk result (out.new ≡ out.old ++ variable_text self.now) }
        ensures allowed { OnOk result (AreAllowed (variable_tokens self.now)) }
    {
        out.word(self.name.name.rows())?;
        out.word(b": ")?;
        self.class.print(out)?;
        print_line(out, ";")
    }
}

impl Class {
    /// The reference to the type as it is written, in lower case.
    pub fn reference(&self, alloc: Global) -> Result<TextBuf, NoMemory>
        ensures { IfOk result (λ text. text ≡ class_text self.now) }
    {
        let mut out = TextBuf::new(alloc);
        self.print(&mut out)?;
        Ok(out)
    }

    fn print(&self, out: &mut TextBuf) -> Result<(), NoMemory>
        ensures text { OnOk result (out.new ≡ out.old ++ class_text self.now) }
        ensures allowed { OnOk result (AreAllowed (class_tokens self.now)) }
    {
        match self {
            Class::Base(_, base) => print_base(out, *base),
            Class::Model(own) => {
                out.word(own.first.name.rows())?;
                print_path(out, own.others.rows())?;
                print_implementation(out, &own.implementation)
            }
        }
    }
}

fn print_base(out: &mut TextBuf, base: BaseType) -> Result<(), NoMemory>
    ensures { OnOk result (out.new ≡ out.old ++ base_text base) }
{
    out.word(b"base_types::")?;
    out.word(base.name().as_bytes())
}

fn print_path(out: &mut TextBuf, names: &[Identifier]) -> Result<(), NoMemory>
    ensures text { OnOk result (out.new ≡ out.old ++ flat_map behind_colons names.now) }
    ensures allowed { OnOk result (AreAllowed (flat_map step_tokens names.now)) }
{
    for name in names {
        out.word(b"::")?;
        out.word(name.rows())?;
    }
    Ok(())
}

fn print_implementation(out: &mut TextBuf, name: &Option<Identifier>) -> Result<(), NoMemory>
    ensures text { OnOk result (out.new ≡ out.old ++ implementation_text name.now) }
    ensures allowed { OnOk result (AreAllowed (implementation_tokens name.now)) }
{
    match name {
        Some(name) => {
            out.word(b".")?;
            out.word(name.rows())
        }
        None => Ok(()),
    }
}
