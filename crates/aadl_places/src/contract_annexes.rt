//! Which annexes are the contracts of threads.

ghost use Rattle.std.specs.Prelude.{◌≡◌, IfOk};
ghost use Rattle.aadl_places.specs.ContractAnnexes.{is_gumbo, is_type, is_implementation, is_declaration, last_gumbo, contract_annex, is_followed, is_last_of_thread, is_contract, ignored_annexes};

use crate::property_places::is_of;
use crate::site::component_category;
use aadl_names::{AnnexRow, Element, Held, Tables};
use aadl_tree::{Annex, Category};
use hw_text::{NoMemory, Rows};
use std::alloc::Global;

/// The row of the annex that is the contract of a thread of this type and this implementation.
pub fn contract_annex(
    tables: &Tables<'_>,
    declared: usize,
    implementation: Option<usize>,
) -> Option<usize>
    ensures { result ≡ contract_annex tables.now declared implementation }
{
    let annexes = tables.annexes.rows();
    if let Some(own) = implementation {
        if let Some(found) = last_gumbo(Element::Implementation(own), annexes) {
            return Some(found);
        }
    }
    last_gumbo(Element::Type(declared), annexes)
}

/// The last GUMBO annex in a declaration.
fn last_gumbo(declaration: Element, rows: &[AnnexRow<'_>]) -> Option<usize>
    ensures { result ≡ last_gumbo declaration 0 rows.now }
{
    let mut last = None;
    for (place, row) in rows.iter().enumerate() {
        if is_declaration(declaration, row.holder) && is_gumbo(row.annex.get()) {
            last = Some(place);
        }
    }
    last
}

/// The annexes that are the contract of no type or implementation.
pub fn ignored_annexes<'a>(
    alloc: Global,
    tables: &Tables<'a>,
) -> Result<Rows<Held<'a, Annex>>, NoMemory>
    ensures { IfOk result (λ ignored. ignored ≡ ignored_annexes tables.now tables.now.annexes) }
{
    let rows = tables.annexes.rows();
    let mut ignored = Rows::new(alloc);
    for (place, row) in rows.iter().enumerate() {
        let (_, later) = rows.split_at(place + 1);
        if !is_contract(tables, row, later) {
            ignored.push(Held::new(row.annex.get()))?;
        }
    }
    Ok(ignored)
}

fn is_contract(tables: &Tables<'_>, row: &AnnexRow<'_>, later: &[AnnexRow<'_>]) -> bool
    ensures { result ≡ is_contract tables.now row.now later.now }
{
    is_gumbo(row.annex.get()) && is_last_of_thread(tables, row.holder, later)
}

fn is_last_of_thread(tables: &Tables<'_>, holder: Option<Element>, later: &[AnnexRow<'_>]) -> bool
    ensures { result ≡ is_last_of_thread tables.now holder later.now }
{
    match holder {
        Some(declaration) => {
            is_of(Category::Thread, component_category(tables, declaration))
                && !is_followed(declaration, later)
        }
        None => false,
    }
}

/// Whether there is a GUMBO annex among the rows of a declaration that come next.
fn is_followed(declaration: Element, later: &[AnnexRow<'_>]) -> bool
    ensures { result ≡ is_followed declaration later.now }
{
    for row in later {
        if !is_declaration(declaration, row.holder) {
            return false;
        }
        if is_gumbo(row.annex.get()) {
            return true;
        }
    }
    false
}

fn is_gumbo(annex: &Annex) -> bool
    ensures { result ≡ is_gumbo annex.now }
{
    annex.name.name.rows() == "gumbo".as_bytes()
}

fn is_declaration(declaration: Element, holder: Option<Element>) -> bool
    ensures { result ≡ is_declaration declaration holder }
{
    match declaration {
        Element::Type(number) => is_type(number, holder),
        Element::Implementation(number) => is_implementation(number, holder),
        _ => false,
    }
}

fn is_type(number: usize, holder: Option<Element>) -> bool
    ensures { result ≡ is_type number holder }
{
    match holder {
        Some(Element::Type(other)) => number == other,
        _ => false,
    }
}

fn is_implementation(number: usize, holder: Option<Element>) -> bool
    ensures { result ≡ is_implementation number holder }
{
    match holder {
        Some(Element::Implementation(other)) => number == other,
        _ => false,
    }
}
