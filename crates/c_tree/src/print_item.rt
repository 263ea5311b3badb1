//! Printing what stands outside functions.

ghost use Rattle.std.specs.Prelude.{◌≡◌, ◌++◌, OnOk, true};
ghost use Rattle.c_tree.specs.Items.{initial_text, variable_text, external_text, pointer_text, item_text};

use crate::item::{External, InitialValue, Item, Pointer, Variable};
use crate::print_type::{end_line, print_declared, print_static, print_truth};
use hw_text::{NoMemory, TextBuf};
use std::alloc::Global;

impl Item {
    pub fn print(&self, alloc: Global, out: &mut TextBuf) -> Result<(), NoMemory>
        ensures { OnOk result (out.new ≡ out.old ++ item_text self.now) }
    {
        match self {
            Item::Enumeration(enumeration) => enumeration.print(out),
            Item::Structure(structure) => structure.print(out),
            Item::Variable(variable) => variable.print(out),
            Item::External(external) => external.print(out),
            Item::Pointer(pointer) => pointer.print(out),
            Item::Prototype(prototype) => prototype.print(out),
            Item::Function(function) => function.print(alloc, out),
        }
    }
}

impl Variable {
    fn print(&self, out: &mut TextBuf) -> Result<(), NoMemory>
        ensures { OnOk result (out.new ≡ out.old ++ variable_text self.now) }
    {
        print_static(out, self.is_static)?;
        print_declared(out, &self.class, &self.name, &self.length)?;
        print_initial(out, &self.initial)?;
        end_line(out)
    }
}

fn print_initial(out: &mut TextBuf, value: &Option<InitialValue>) -> Result<(), NoMemory>
    ensures { OnOk result (out.new ≡ out.old ++ initial_text value.now) }
{
    let Some(value) = value else {
        return Ok(());
    };
    out.word(b" = ")?;
    match value {
        InitialValue::Zero => out.word(b"{0}"),
        InitialValue::Number(literal) => literal.print(out),
        InitialValue::Truth(_, value) => print_truth(out, *value),
        InitialValue::Enumerator(named) => out.word(named.name.rows()),
    }
}

impl External {
    fn print(&self, out: &mut TextBuf) -> Result<(), NoMemory>
        ensures { OnOk result (out.new ≡ out.old ++ external_text self.now) }
    {
        out.word(b"extern ")?;
        print_declared(out, &self.class, &self.name, &self.length)?;
        end_line(out)
    }
}

impl Pointer {
    fn print(&self, out: &mut TextBuf) -> Result<(), NoMemory>
        ensures { OnOk result (out.new ≡ out.old ++ pointer_text self.now) }
    {
        out.word(b"volatile ")?;
        out.word(self.class.name.rows())?;
        out.word(b" *")?;
        out.word(self.name.name.rows())?;
        end_line(out)
    }
}
