//! Printing packages and what they declare.

ghost use Rattle.std.specs.Prelude.{◌≡◌, ◌∷◌, [], IfOk, OnOk};
ghost use Rattle.std.specs.List.{flat_map};
ghost use Rattle.aadl_tree.specs.declared.word.Word.TheVariants as word;
ghost use Rattle.aadl_tree.specs.Allowed.{AreAllowed};
ghost use Rattle.aadl_tree.specs.Canonical.{behind_comma, qualified_tokens, section_tokens};
ghost use Rattle.aadl_tree.specs.Layout.{canonical_text, written};
ghost use Rattle.aadl_tree.specs.Lexed.{HasTokens};
ghost use Rattle.aadl_tree.specs.Packages.{annex_token, annex_tokens, feature_tokens, subcomponent_tokens, connection_tokens, type_tokens, implementation_tokens, declaration_tokens, import_tokens, package_tokens};
ghost use Rattle.aadl_tree.specs.Values.{association_tokens};

use crate::annex::Annex;
use crate::annex_text::AnnexText;
use crate::component::{ComponentType, Implementation};
use crate::mark::Mark;
use crate::names::QualifiedName;
use crate::package::{Declaration, Import, Package};
use crate::page::Page;
use crate::print_sections::{
    print_connections, print_features, print_properties, print_subcomponents,
};
use crate::word::Word;
use hw_text::{NoMemory, TextBuf};
use std::alloc::Global;

/// The canonical text of a model: its tokens without comments and sections of `none`, in lower case
/// but for texts and annexes, laid out on lines.
#[tactic(auto, using(crate::proofs::Writing::text_of_page))]
pub fn print(alloc: Global, model: &Package) -> Result<TextBuf, NoMemory>
    ensures text { IfOk result (λ text. text ≡ canonical_text model.now) }
    ensures allowed { OnOk result (AreAllowed (package_tokens model.now)) }
    ensures tokens { IfOk result (λ text. HasTokens text (package_tokens model.now)) }
{
    let mut page = Page::new(alloc);
    model.print(&mut page)?;
    Ok(page.into_text())
}

#[tactic(auto, using(crate::proofs::Writing::written_append), unfolding(crate::specs::Packages::package_tokens))]
impl Package {
    fn print(&self, page: &mut Page) -> Result<(), NoMemory>
        ensures { OnOk result (page.new ≡ written page.old (package_tokens self.now)) }
    {
        page.word(Word::Package)?;
        self.name.print(page)?;
        page.word(Word::Public)?;
        print_imports(page, self.imports.rows())?;
        print_declarations(page, self.declarations.rows())?;
        page.word(Word::End)?;
        self.end_name.print(page)?;
        page.mark(Mark::Semicolon)
    }
}

#[tactic(auto, using(crate::proofs::Writing::written_append), unfolding(crate::specs::Packages::import_tokens))]
impl Import {
    fn print(&self, page: &mut Page) -> Result<(), NoMemory>
        ensures { OnOk result (page.new ≡ written page.old (import_tokens self.now)) }
    {
        page.word(Word::With)?;
        self.first.print(page)?;
        print_other_names(page, self.others.rows())?;
        page.mark(Mark::Semicolon)
    }
}

#[tactic(auto, using(crate::proofs::Writing::written_append), unfolding(crate::specs::Packages::declaration_tokens))]
impl Declaration {
    fn print(&self, page: &mut Page) -> Result<(), NoMemory>
        ensures { OnOk result (page.new ≡ written page.old (declaration_tokens self.now)) }
    {
        match self {
            Declaration::Type(component_type) => component_type.print(page),
            Declaration::Implementation(implementation) => implementation.print(page),
            Declaration::Annex(annex) => annex.print(page),
        }
    }
}

#[tactic(auto, using(crate::proofs::Writing::written_append), unfolding(crate::specs::Packages::type_tokens))]
impl ComponentType {
    fn print(&self, page: &mut Page) -> Result<(), NoMemory>
        ensures { OnOk result (page.new ≡ written page.old (type_tokens self.now)) }
    {
        page.word(self.category.word())?;
        page.name(&self.name.name)?;
        print_features(page, self.features.rows())?;
        print_properties(page, self.properties.rows())?;
        print_annexes(page, self.annexes.rows())?;
        page.word(Word::End)?;
        page.name(&self.end_name.name)?;
        page.mark(Mark::Semicolon)
    }
}

#[tactic(auto, using(crate::proofs::Writing::written_append), unfolding(crate::specs::Packages::implementation_tokens))]
impl Implementation {
    fn print(&self, page: &mut Page) -> Result<(), NoMemory>
        ensures { OnOk result (page.new ≡ written page.old (implementation_tokens self.now)) }
    {
        page.word(self.category.word())?;
        page.word(Word::Implementation)?;
        self.name.print(page)?;
        print_subcomponents(page, self.subcomponents.rows())?;
        print_connections(page, self.connections.rows())?;
        print_properties(page, self.properties.rows())?;
        print_annexes(page, self.annexes.rows())?;
        page.word(Word::End)?;
        self.end_name.print(page)?;
        page.mark(Mark::Semicolon)
    }
}

#[tactic(auto, using(crate::proofs::Writing::written_append), unfolding(crate::specs::Packages::annex_tokens))]
impl Annex {
    fn print(&self, page: &mut Page) -> Result<(), NoMemory>
        ensures { OnOk result (page.new ≡ written page.old (annex_tokens self.now)) }
    {
        page.word(Word::Annex)?;
        page.name(&self.name.name)?;
        print_annex_text(page, &self.text)?;
        page.mark(Mark::Semicolon)
    }
}

fn print_annex_text(page: &mut Page, text: &Option<AnnexText>) -> Result<(), NoMemory>
    ensures { OnOk result (page.new ≡ written page.old (annex_token text.now ∷ [])) }
{
    match text {
        Some(text) => page.annex(text),
        None => page.word(Word::None),
    }
}

#[tactic(auto, using(crate::proofs::Writing::written_append))]
fn print_imports(page: &mut Page, imports: &[Import]) -> Result<(), NoMemory>
    ensures { OnOk result (page.new ≡ written page.old (flat_map import_tokens imports.now)) }
{
    for import in imports {
        import.print(page)?;
    }
    Ok(())
}

#[tactic(auto, using(crate::proofs::Writing::written_append))]
fn print_declarations(page: &mut Page, declarations: &[Declaration]) -> Result<(), NoMemory>
    ensures { OnOk result (page.new ≡ written page.old (flat_map declaration_tokens declarations.now)) }
{
    for declaration in declarations {
        declaration.print(page)?;
    }
    Ok(())
}

#[tactic(auto, using(crate::proofs::Writing::written_append))]
fn print_annexes(page: &mut Page, annexes: &[Annex]) -> Result<(), NoMemory>
    ensures { OnOk result (page.new ≡ written page.old (flat_map annex_tokens annexes.now)) }
{
    for annex in annexes {
        annex.print(page)?;
    }
    Ok(())
}

/// Prints each name behind a comma.
#[tactic(auto, using(crate::proofs::Writing::written_append))]
fn print_other_names(page: &mut Page, names: &[QualifiedName]) -> Result<(), NoMemory>
    ensures { OnOk result (page.new ≡ written page.old (flat_map (behind_comma qualified_tokens) names.now)) }
{
    for name in names {
        page.mark(Mark::Comma)?;
        name.print(page)?;
    }
    Ok(())
}
