//! Printing the types that declarations name, and what may stand behind a declared name.

ghost use Rattle.std.specs.Prelude.{◌≡◌, ◌++◌, [], codes, OnOk, true};
ghost use Rattle.c_tree.specs.Items.{static_text};
ghost use Rattle.c_tree.specs.Statements.{line};
ghost use Rattle.c_tree.specs.Printing.{type_text, length_text, signed_text, declared_text, truth_text};

use crate::named::{Literal, Named, SignedLiteral};
use crate::type_name::TypeName;
use hw_text::{NoMemory, TextBuf};

impl TypeName {
    pub fn print(&self, out: &mut TextBuf) -> Result<(), NoMemory>
        ensures { OnOk result (out.new ≡ out.old ++ type_text self.now) }
    {
        match self {
            TypeName::Integer(_, class) => out.word(class.spelling().as_bytes()),
            TypeName::Truth(_) => out.word(b"bool"),
            TypeName::Defined(named) => out.word(named.name.rows()),
        }
    }
}

impl SignedLiteral {
    pub fn print(&self, out: &mut TextBuf) -> Result<(), NoMemory>
        ensures { OnOk result (out.new ≡ out.old ++ signed_text self.now) }
    {
        if self.negative {
            out.word(b"-")?;
        }
        out.word(self.literal.numeral.rows())
    }
}

/// Appends the length of an array, in brackets.
fn print_length(out: &mut TextBuf, length: &Option<Literal>) -> Result<(), NoMemory>
    ensures { OnOk result (out.new ≡ out.old ++ length_text length.now) }
{
    match length {
        Some(literal) => {
            out.word(b"[")?;
            out.word(literal.numeral.rows())?;
            out.word(b"]")
        }
        None => Ok(()),
    }
}

/// Appends a type, a name, and the length of an array.
pub fn print_declared(
    out: &mut TextBuf,
    class: &TypeName,
    name: &Named,
    length: &Option<Literal>,
) -> Result<(), NoMemory>
    ensures { OnOk result (out.new ≡ out.old ++ declared_text class.now name.now length.now) }
{
    class.print(out)?;
    out.word(b" ")?;
    out.word(name.name.rows())?;
    print_length(out, length)
}

pub fn print_truth(out: &mut TextBuf, value: bool) -> Result<(), NoMemory>
    ensures { OnOk result (out.new ≡ out.old ++ truth_text value) }
{
    if value {
        out.word(b"true")
    } else {
        out.word(b"false")
    }
}

pub fn print_static(out: &mut TextBuf, is_static: bool) -> Result<(), NoMemory>
    ensures { OnOk result (out.new ≡ out.old ++ static_text is_static) }
{
    if is_static {
        out.word(b"static ")
    } else {
        Ok(())
    }
}

/// Appends what ends a declaration, and its line.
pub fn end_line(out: &mut TextBuf) -> Result<(), NoMemory>
    ensures { OnOk result (out.new ≡ out.old ++ line [] (codes ";")) }
{
    out.word(b";")?;
    out.newline()
}
