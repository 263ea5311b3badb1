//! Printing functions.

ghost use Rattle.std.specs.Prelude.{◌≡◌, ◌++◌, map, codes, OnOk, true};
ghost use Rattle.std.specs.List.{flat_map, list_all};
ghost use Rattle.c_tree.specs.Printing.{behind_comma};
ghost use Rattle.c_tree.specs.Items.{parameter_text, parameters_text, result_text, signature_text, prototype_text, class_of, return_text, opening_text, body_text, function_text};

use crate::item::{Function, Parameter, Prototype, Returned};
use crate::named::Named;
use crate::print_statement::print_all;
use crate::print_type::{end_line, print_static};
use crate::type_name::TypeName;
use hw_text::{NoMemory, TextBuf};
use std::alloc::Global;

impl Parameter {
    fn print(&self, out: &mut TextBuf) -> Result<(), NoMemory>
        ensures { OnOk result (out.new ≡ out.old ++ parameter_text self.now) }
    {
        self.class.print(out)?;
        if self.is_pointer {
            out.word(b" *")?;
        } else {
            out.word(b" ")?;
        }
        out.word(self.name.name.rows())
    }
}

fn print_parameters(out: &mut TextBuf, parameters: &[Parameter]) -> Result<(), NoMemory>
    ensures { OnOk result (out.new ≡ out.old ++ parameters_text parameters.now) }
{
    let Some((first, others)) = parameters.split_first() else {
        return out.word(b"void");
    };
    first.print(out)?;
    for parameter in others {
        out.word(b", ")?;
        parameter.print(out)?;
    }
    Ok(())
}

impl Prototype {
    pub fn print(&self, out: &mut TextBuf) -> Result<(), NoMemory>
        ensures { OnOk result (out.new ≡ out.old ++ prototype_text self.now) }
    {
        print_static(out, self.is_static)?;
        print_result(out, &self.class)?;
        print_signature(out, &self.name, self.parameters.rows())?;
        end_line(out)
    }
}

/// Appends the type of what a function gives.
fn print_result(out: &mut TextBuf, class: &Option<TypeName>) -> Result<(), NoMemory>
    ensures { OnOk result (out.new ≡ out.old ++ result_text class.now) }
{
    match class {
        Some(class) => class.print(out),
        None => out.word(b"void"),
    }
}

/// Appends a function's name and its parameters.
fn print_signature(
    out: &mut TextBuf,
    name: &Named,
    parameters: &[Parameter],
) -> Result<(), NoMemory>
    ensures { OnOk result (out.new ≡ out.old ++ signature_text name.now parameters.now) }
{
    out.word(b" ")?;
    out.word(name.name.rows())?;
    out.word(b"(")?;
    print_parameters(out, parameters)?;
    out.word(b")")
}

impl Function {
    pub fn print(&self, alloc: Global, out: &mut TextBuf) -> Result<(), NoMemory>
        ensures { OnOk result (out.new ≡ out.old ++ function_text self.now) }
    {
        self.print_opening(out)?;
        self.print_body(alloc, out, b"    ")?;
        out.word(b"}")?;
        out.newline()
    }

    /// Appends what stands between the braces.
    #[tactic(auto, unfolding(crate::specs::Items::body_text))]
    fn print_body(&self, alloc: Global, out: &mut TextBuf, margin: &[u8]) -> Result<(), NoMemory>
        ensures { OnOk result (out.new ≡ out.old ++ body_text margin.now self.now) }
    {
        print_all(alloc, out, self.body.rows(), margin)?;
        print_return(out, &self.returned, margin)
    }

    /// Appends the opening line.
    #[tactic(auto, unfolding(crate::specs::Items::opening_text))]
    fn print_opening(&self, out: &mut TextBuf) -> Result<(), NoMemory>
        ensures { OnOk result (out.new ≡ out.old ++ opening_text self.now) }
    {
        print_static(out, self.is_static)?;
        self.print_class(out)?;
        print_signature(out, &self.name, self.parameters.rows())?;
        out.word(b" {")?;
        out.newline()
    }

    fn print_class(&self, out: &mut TextBuf) -> Result<(), NoMemory>
        ensures { OnOk result (out.new ≡ out.old ++ result_text (class_of self.now.returned)) }
    {
        match &self.returned {
            Some(returned) => returned.class.print(out),
            None => out.word(b"void"),
        }
    }
}

/// Appends the `return` at the end of a body.
fn print_return(
    out: &mut TextBuf,
    returned: &Option<Returned>,
    margin: &[u8],
) -> Result<(), NoMemory>
    ensures { OnOk result (out.new ≡ out.old ++ return_text margin.now returned.now) }
{
    let Some(returned) = returned else {
        return Ok(());
    };
    out.word(margin)?;
    out.word(b"return ")?;
    returned.value.print(out)?;
    end_line(out)
}
