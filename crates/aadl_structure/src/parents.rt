//! Components that stand where they may not, or hold what they may not.

ghost use Rattle.std.specs.Prelude.{◌≡◌, None, IfOk};
ghost use Rattle.aadl_names.specs.Offences.{earliest_from};
ghost use Rattle.aadl_structure.specs.Parents.{may_hold, is_closed, child_offence, feature_offence, parent_offences};

use crate::telling::refused;
use crate::threads::first_wrong_process;
use aadl_names::{Held, PartRow, Scope, Test, first_offence};
use aadl_tree::{Category, ComponentType, Subcomponent};
use hw_text::{Code, NoMemory, Refusal};
use std::alloc::Global;

/// Whether subcomponents may stand where they do.
#[derive(Clone, Copy)]
struct Children;

/// Whether types may have features.
#[derive(Clone, Copy)]
struct Closed;

/// The first subcomponent that its parent may not hold, type that may have no features, or process
/// without exactly one thread.
#[tactic(auto, using(crate::proofs::Earliest::earliest_append))]
pub fn first_wrong_parent(alloc: Global, scope: &Scope<'_>) -> Result<Option<Refusal>, NoMemory>
    ensures { IfOk result (λ first. first ≡ earliest_from None (parent_offences scope.now.references.now scope.now.tables.now)) }
{
    let tables = scope.tables;
    let children = tables.subcomponents.rows();
    let first = first_offence(alloc, &Children, children, None)?;
    let first = first_offence(alloc, &Closed, tables.types.rows(), first)?;
    let first = first_wrong_process(alloc, scope, first)?;
    Ok(first)
}

impl<'a> Test<PartRow<'a, Subcomponent>> for Children {
    ghost offence_of = { λ _. child_offence };

    fn offence(
        &self,
        alloc: Global,
        row: &PartRow<'a, Subcomponent>,
    ) -> Result<Option<Refusal>, NoMemory> {
        let child = row.part.get();
        if may_hold(row.category, child.category) {
            return Ok(None);
        }
        let name = &child.name;
        refused(alloc, Code::ModelWrongParent, name.place, name.name.rows())
    }
}

impl<'a> Test<Held<'a, ComponentType>> for Closed {
    ghost offence_of = { λ _. feature_offence };

    fn offence(
        &self,
        alloc: Global,
        row: &Held<'a, ComponentType>,
    ) -> Result<Option<Refusal>, NoMemory> {
        let declared = row.get();
        if !is_closed(declared.category) || declared.features.len() == 0 {
            return Ok(None);
        }
        let name = &declared.name;
        refused(alloc, Code::ModelWrongParent, name.place, name.name.rows())
    }
}

/// Whether a component of the first category may hold one of the second.
fn may_hold(parent: Category, child: Category) -> bool
    ensures { result ≡ may_hold parent child }
{
    match (parent, child) {
        (Category::Data, Category::Data) => true,
        (Category::Process, Category::Thread) => true,
        (Category::System, Category::System) => true,
        (Category::System, Category::Process) => true,
        (Category::System, Category::Device) => true,
        (Category::System, Category::Processor) => true,
        _ => false,
    }
}

/// Whether components of the category have no features.
fn is_closed(category: Category) -> bool
    ensures { result ≡ is_closed category }
{
    match category {
        Category::Data | Category::Processor => true,
        _ => false,
    }
}
