//! The conditions of a model, and the first refusal of each.

use aadl_domains::{Sought, roots};
use aadl_names::Scope;
use aadl_places::{first_bad_property, first_long_queue};
use aadl_structure::{
    first_duplicate, first_fan_in, first_kind_difference, first_unknown, first_wide,
    first_wrong_end, first_wrong_parent, first_wrong_root,
};
use aadl_timing::Instance;
use aadl_tree::Package;
use aadl_typing::{
    first_c_word, first_containing_itself, first_type_difference, first_wide_payload,
};
use case_files::tell_line;
use hw_text::{NoMemory, Refusal, TextBuf};
use std::alloc::Global;

/// In the order of the conditions, the line of the first refusal of each that a model does not meet.
pub fn tell_conditions(
    alloc: Global,
    model: &Package,
    scope: &Scope<'_>,
    out: &mut TextBuf,
) -> Result<(), NoMemory> {
    let before = out.rows().len();
    let root = roots(alloc, scope.tables, scope.resolved)?
        .rows()
        .first()
        .copied();
    tell_names(alloc, model, scope, out)?;
    tell_structure(alloc, model, scope, out)?;
    tell_timing(alloc, scope, root, out)?;
    tell(alloc, first_c_word(alloc, scope)?, out)?;
    tell_limits(alloc, scope, root, out)?;
    if out.rows().len() == before {
        tell_line(out, b"each is met")?;
    }
    Ok(())
}

fn tell_names(
    alloc: Global,
    model: &Package,
    scope: &Scope<'_>,
    out: &mut TextBuf,
) -> Result<(), NoMemory> {
    tell(alloc, first_unknown(alloc, scope)?, out)?;
    tell(alloc, first_duplicate(alloc, scope)?, out)?;
    tell(alloc, first_wrong_end(alloc, model, scope)?, out)
}

fn tell_structure(
    alloc: Global,
    model: &Package,
    scope: &Scope<'_>,
    out: &mut TextBuf,
) -> Result<(), NoMemory> {
    tell(alloc, first_wrong_parent(alloc, scope)?, out)?;
    tell(alloc, first_kind_difference(alloc, scope)?, out)?;
    tell(alloc, first_type_difference(alloc, scope)?, out)?;
    tell(alloc, first_fan_in(alloc, scope)?, out)?;
    tell(alloc, first_bad_property(alloc, scope)?, out)?;
    tell(alloc, first_containing_itself(alloc, model, scope)?, out)?;
    tell(alloc, first_wrong_root(alloc, scope)?, out)
}

/// Those of the threads and the names of the instance that begins with an implementation.
fn tell_timing(
    alloc: Global,
    scope: &Scope<'_>,
    root: Option<usize>,
    out: &mut TextBuf,
) -> Result<(), NoMemory> {
    let Some(root) = root else {
        return Ok(());
    };
    let instance = instance_of(scope);
    tell(alloc, instance.first_untimed(alloc, root)?, out)?;
    tell(alloc, instance.first_clash(alloc, root)?, out)
}

fn tell_limits(
    alloc: Global,
    scope: &Scope<'_>,
    root: Option<usize>,
    out: &mut TextBuf,
) -> Result<(), NoMemory> {
    tell_over(alloc, scope, root, Sought::Domain, out)?;
    tell(alloc, first_wide(alloc, scope)?, out)?;
    tell(alloc, first_long_queue(alloc, scope)?, out)?;
    tell(alloc, first_wide_payload(alloc, scope)?, out)?;
    tell_over(alloc, scope, root, Sought::Processor, out)?;
    match root {
        Some(root) => tell(alloc, instance_of(scope).first_deep(alloc, root)?, out),
        None => Ok(()),
    }
}

fn tell_over(
    alloc: Global,
    scope: &Scope<'_>,
    root: Option<usize>,
    sought: Sought,
    out: &mut TextBuf,
) -> Result<(), NoMemory> {
    match root {
        Some(root) => tell(alloc, instance_of(scope).over(alloc, sought, root)?, out),
        None => Ok(()),
    }
}

fn instance_of<'a>(scope: &Scope<'a>) -> Instance<'a> {
    Instance {
        tables: scope.tables,
        resolved: scope.resolved,
    }
}

fn tell(alloc: Global, refusal: Option<Refusal>, out: &mut TextBuf) -> Result<(), NoMemory> {
    match refusal {
        Some(refusal) => out.word(refusal.line(alloc, b"m")?.rows()),
        None => Ok(()),
    }
}
