//! The domains of the instances of a model.

use crate::elements::tell_head;
use aadl_domains::{Path, Sought, listed, roots};
use aadl_names::Scope;
use case_files::{tell_line, tell_number};
use hw_text::{NoMemory, TextBuf};
use std::alloc::Global;

/// How many domains are told by name: one more than a model may have.
const LIMIT: u32 = 61;

/// For each implementation with which an instance may begin its row and its name, the names of the
/// first domains, and how many domains there are.
pub fn tell_domains(alloc: Global, scope: &Scope<'_>, out: &mut TextBuf) -> Result<(), NoMemory> {
    let roots = roots(alloc, scope.tables, scope.resolved)?;
    if roots.is_empty() {
        return tell_line(out, b"no root");
    }
    for &root in roots.rows() {
        tell_root(scope, root, out)?;
        let found = listed(
            alloc,
            scope.tables,
            scope.resolved,
            Sought::Domain,
            root,
            LIMIT,
        )?;
        for path in found.first.rows() {
            tell_path(scope, path, out)?;
        }
        tell_number(out, b"domains", i128::from(found.count))?;
    }
    Ok(())
}

fn tell_root(scope: &Scope<'_>, root: usize, out: &mut TextBuf) -> Result<(), NoMemory> {
    tell_head(out, b"root", root)?;
    if let Some(row) = scope.tables.implementations.rows().get(root) {
        let name = &row.get().name;
        out.word(name.component_type.name.rows())?;
        out.word(b".")?;
        out.word(name.name.rows())?;
    }
    out.newline()
}

/// The name of a domain: the names of the subcomponents on the way to it.
fn tell_path(scope: &Scope<'_>, path: &Path, out: &mut TextBuf) -> Result<(), NoMemory> {
    out.word(b"domain ")?;
    for (step, &row) in path.rows().iter().enumerate() {
        if step > 0 {
            out.word(b"_")?;
        }
        if let Some(found) = scope.tables.subcomponents.rows().get(row) {
            out.word(found.part.get().name.name.rows())?;
        }
    }
    out.newline()
}
