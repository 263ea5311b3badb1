//! Printing the types that units define.

ghost use Rattle.std.specs.Prelude.{◌≡◌, ◌++◌, ◌∷◌, map, OnOk, true};
ghost use Rattle.std.specs.List.{flat_map, list_all};
ghost use Rattle.c_tree.specs.Printing.{behind_comma, with_commas};
ghost use Rattle.c_tree.specs.Items.{enumeration_opening, enumeration_text, structure_opening, member_text, structure_text, name_text};

use crate::item::{Enumeration, Member, Structure};
use crate::named::Named;
use crate::print_type::{end_line, print_declared};
use hw_text::{NoMemory, TextBuf};

impl Enumeration {
    pub fn print(&self, out: &mut TextBuf) -> Result<(), NoMemory>
        ensures { OnOk result (out.new ≡ out.old ++ enumeration_text self.now) }
    {
        open_enumeration(out)?;
        print_enumerators(out, &self.first, self.others.rows())?;
        out.word(b" } ")?;
        out.word(self.name.name.rows())?;
        end_line(out)
    }
}

#[tactic(auto, unfolding(crate::specs::Items::enumeration_opening))]
fn open_enumeration(out: &mut TextBuf) -> Result<(), NoMemory>
    ensures { OnOk result (out.new ≡ out.old ++ enumeration_opening) }
{
    out.word(b"typedef enum { ")
}

fn print_enumerators(out: &mut TextBuf, first: &Named, others: &[Named]) -> Result<(), NoMemory>
    ensures { OnOk result (out.new ≡ out.old ++ with_commas (map name_text (first.now ∷ others.now))) }
{
    out.word(first.name.rows())?;
    for named in others {
        out.word(b", ")?;
        out.word(named.name.rows())?;
    }
    Ok(())
}

impl Structure {
    pub fn print(&self, out: &mut TextBuf) -> Result<(), NoMemory>
        ensures { OnOk result (out.new ≡ out.old ++ structure_text self.now) }
    {
        open_structure(out)?;
        print_members(out, &self.first, self.others.rows())?;
        out.word(b"} ")?;
        out.word(self.name.name.rows())?;
        end_line(out)
    }
}

#[tactic(auto, unfolding(crate::specs::Items::structure_opening))]
fn open_structure(out: &mut TextBuf) -> Result<(), NoMemory>
    ensures { OnOk result (out.new ≡ out.old ++ structure_opening) }
{
    out.word(b"typedef struct { ")
}

fn print_members(out: &mut TextBuf, first: &Member, others: &[Member]) -> Result<(), NoMemory>
    ensures { OnOk result (out.new ≡ out.old ++ flat_map member_text (first.now ∷ others.now)) }
{
    first.print(out)?;
    for member in others {
        member.print(out)?;
    }
    Ok(())
}

impl Member {
    fn print(&self, out: &mut TextBuf) -> Result<(), NoMemory>
        ensures { OnOk result (out.new ≡ out.old ++ member_text self.now) }
    {
        print_declared(out, &self.class, &self.name, &self.length)?;
        out.word(b"; ")
    }
}
