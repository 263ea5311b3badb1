//! Printing names and classifiers.

ghost use Rattle.std.specs.Prelude.{◌≡◌, OnOk};
ghost use Rattle.std.specs.List.{flat_map};
ghost use Rattle.aadl_tree.specs.Canonical.{behind_colons, behind_dot, maybe_behind_dot, qualified_tokens, path_tokens, implementation_name_tokens, class_tokens};
ghost use Rattle.aadl_tree.specs.Layout.{written};

use crate::class::Class;
use crate::mark::Mark;
use crate::names::{ImplementationName, Path, QualifiedName};
use crate::page::Page;
use hw_text::{Name, NoMemory};

#[tactic(auto, using(crate::proofs::Writing::written_append), unfolding(crate::specs::Canonical::qualified_tokens))]
impl QualifiedName {
    pub fn print(&self, page: &mut Page) -> Result<(), NoMemory>
        ensures { OnOk result (page.new ≡ written page.old (qualified_tokens self.now)) }
    {
        page.name(&self.first.name)?;
        print_behind_colons(page, self.others.rows())
    }
}

#[tactic(auto, using(crate::proofs::Writing::written_append), unfolding(crate::specs::Canonical::path_tokens))]
impl Path {
    pub fn print(&self, page: &mut Page) -> Result<(), NoMemory>
        ensures { OnOk result (page.new ≡ written page.old (path_tokens self.now)) }
    {
        page.name(&self.first.name)?;
        for name in self.others.rows() {
            print_behind_dot(page, name)?;
        }
        Ok(())
    }
}

#[tactic(auto, using(crate::proofs::Writing::written_append))]
impl ImplementationName {
    pub fn print(&self, page: &mut Page) -> Result<(), NoMemory>
        ensures { OnOk result (page.new ≡ written page.old (implementation_name_tokens self.now)) }
    {
        page.name(&self.component_type.name)?;
        print_behind_dot(page, &self.name)
    }
}

#[tactic(auto, using(crate::proofs::Writing::written_append))]
impl Class {
    pub fn print(&self, page: &mut Page) -> Result<(), NoMemory>
        ensures { OnOk result (page.new ≡ written page.old (class_tokens self.now)) }
    {
        match self {
            Class::Base(_, base) => page.base_type(*base),
            Class::Model(own) => {
                page.name(&own.first.name)?;
                print_behind_colons(page, own.others.rows())?;
                print_maybe_behind_dot(page, &own.implementation)
            }
        }
    }
}

#[tactic(auto, using(crate::proofs::Writing::written_append))]
fn print_behind_colons(page: &mut Page, names: &[Name]) -> Result<(), NoMemory>
    ensures { OnOk result (page.new ≡ written page.old (flat_map behind_colons names.now)) }
{
    for name in names {
        page.mark(Mark::DoubleColon)?;
        page.name(name)?;
    }
    Ok(())
}

fn print_behind_dot(page: &mut Page, name: &Name) -> Result<(), NoMemory>
    ensures { OnOk result (page.new ≡ written page.old (behind_dot name.now)) }
{
    page.mark(Mark::Dot)?;
    page.name(name)
}

/// Prints the name, where there is one, behind a dot.
pub fn print_maybe_behind_dot(page: &mut Page, name: &Option<Name>) -> Result<(), NoMemory>
    ensures { OnOk result (page.new ≡ written page.old (maybe_behind_dot name.now)) }
{
    match name {
        Some(name) => print_behind_dot(page, name),
        None => Ok(()),
    }
}
