//! Printing contracts.

ghost use Rattle.std.specs.Prelude.{◌≡◌, ◌++◌, Some, IfOk, OnOk};
ghost use Rattle.std.specs.List.{flat_map};
ghost use Rattle.gumbo_parse.specs.declared.word.Word.TheVariants as word;
ghost use Rattle.gumbo_parse.specs.Allowed.{AreAllowed};
ghost use Rattle.gumbo_parse.specs.Annex.{line, description_text, clause_text, clauses_text, section_text, handler_text, compute_text, annex_text};
ghost use Rattle.gumbo_parse.specs.Classes.{variable_text};
ghost use Rattle.gumbo_parse.specs.ContractTokens.{variable_tokens, description_tokens, clause_tokens, section_tokens, handler_tokens, compute_tokens, contract_tokens};
ghost use Rattle.gumbo_parse.specs.Lexed.{HasTokens};

use crate::class::Variable;
use crate::contract::{Clause, Compute, Contract, Handler};
use crate::description::Description;
use crate::level::Level;
use crate::print_class::print_variables;
use crate::word::Word;
use hw_text::{NoMemory, TextBuf};
use std::alloc::Global;

/// The canonical text of a contract: a line for each section, variable and clause.
pub fn print_annex(alloc: Global, contract: &Contract) -> Result<TextBuf, NoMemory>
    ensures text { IfOk result (λ text. text ≡ annex_text contract.now) }
    ensures allowed { OnOk result (AreAllowed (contract_tokens contract.now)) }
    ensures tokens { IfOk result (λ text. HasTokens text (contract_tokens contract.now)) }
{
    let mut out = TextBuf::new(alloc);
    contract.print(&mut out)?;
    Ok(out)
}

impl Contract {
    fn print(&self, out: &mut TextBuf) -> Result<(), NoMemory>
        ensures text { OnOk result (out.new ≡ out.old ++ annex_text self.now) }
        ensures allowed { OnOk result (AreAllowed (contract_tokens self.now)) }
    {
        print_state(out, self.state.rows())?;
        print_section(out, Word::Integration, self.integration.rows())?;
        print_section(out, Word::Initialize, self.initialize.rows())?;
        print_compute(out, &self.compute)
    }
}

pub fn print_line(out: &mut TextBuf, text: &str) -> Result<(), NoMemory>
    ensures { OnOk result (out.new ≡ out.old ++ line text.now) }
{
    out.word(text.as_bytes())?;
    out.newline()
}

fn print_state(out: &mut TextBuf, variables: &[Variable]) -> Result<(), NoMemory>
    ensures text { OnOk result (out.new ≡ out.old ++ section_text word.State variable_text variables.now) }
    ensures allowed { OnOk result (AreAllowed (section_tokens word.State variable_tokens variables.now)) }
{
    if variables.is_empty() {
        return Ok(());
    }
    print_line(out, Word::State.spelling())?;
    print_variables(out, variables)
}

fn print_section(out: &mut TextBuf, word: Word, clauses: &[Clause]) -> Result<(), NoMemory>
    ensures text { OnOk result (out.new ≡ out.old ++ section_text word clause_text clauses.now) }
    ensures allowed { OnOk result (AreAllowed (section_tokens word clause_tokens clauses.now)) }
{
    if clauses.is_empty() {
        return Ok(());
    }
    print_line(out, word.spelling())?;
    print_clauses(out, clauses)
}

fn print_clauses(out: &mut TextBuf, clauses: &[Clause]) -> Result<(), NoMemory>
    ensures text { OnOk result (out.new ≡ out.old ++ clauses_text clauses.now) }
    ensures allowed { OnOk result (AreAllowed (flat_map clause_tokens clauses.now)) }
{
    for clause in clauses {
        clause.print(out)?;
    }
    Ok(())
}

fn print_compute(out: &mut TextBuf, compute: &Option<Compute>) -> Result<(), NoMemory>
    ensures text { OnOk result (out.new ≡ out.old ++ compute_text compute.now) }
    ensures allowed { OnOk result (AreAllowed (compute_tokens compute.now)) }
{
    match compute {
        Some(compute) => compute.print(out),
        None => Ok(()),
    }
}

impl Compute {
    fn print(&self, out: &mut TextBuf) -> Result<(), NoMemory>
        ensures text { OnOk result (out.new ≡ out.old ++ compute_text (Some self.now)) }
        ensures allowed { OnOk result (AreAllowed (compute_tokens (Some self.now))) }
    {
        print_line(out, "compute")?;
        print_clauses(out, self.clauses.rows())?;
        print_handlers(out, self.handlers.rows())
    }
}

fn print_handlers(out: &mut TextBuf, handlers: &[Handler]) -> Result<(), NoMemory>
    ensures text { OnOk result (out.new ≡ out.old ++ flat_map handler_text handlers.now) }
    ensures allowed { OnOk result (AreAllowed (flat_map handler_tokens handlers.now)) }
{
    for handler in handlers {
        handler.print(out)?;
    }
    Ok(())
}

impl Handler {
    fn print(&self, out: &mut TextBuf) -> Result<(), NoMemory>
        ensures text { OnOk result (out.new ≡ out.old ++ handler_text self.now) }
        ensures allowed { OnOk result (AreAllowed (handler_tokens self.now)) }
    {
        out.word(b"handle ")?;
        out.word(self.port.name.rows())?;
        print_line(out, ":")?;
        self.first.print(out)?;
        print_clauses(out, self.others.rows())
    }
}

impl Clause {
    fn print(&self, out: &mut TextBuf) -> Result<(), NoMemory>
        ensures text { OnOk result (out.new ≡ out.old ++ clause_text self.now) }
        ensures allowed { OnOk result (AreAllowed (clause_tokens self.now)) }
    {
        out.word(self.kind.word().spelling().as_bytes())?;
        out.word(b" ")?;
        out.word(self.name.name.rows())?;
        print_description(out, &self.description)?;
        out.word(b": ")?;
        self.expression.print(out, Level::Implication, false)?;
        print_line(out, ";")
    }
}

fn print_description(out: &mut TextBuf, text: &Option<Description>) -> Result<(), NoMemory>
    ensures text { OnOk result (out.new ≡ out.old ++ description_text text.now) }
    ensures allowed { OnOk result (AreAllowed (description_tokens text.now)) }
{
    match text {
        Some(text) => {
            out.word(b" \"")?;
            out.word(text.rows())?;
            out.word(b"\"")
        }
        None => Ok(()),
    }
}
