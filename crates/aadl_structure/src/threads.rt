//! Processes that have not exactly one thread.

ghost use Rattle.std.specs.Prelude.{◌≡◌, false, slice_index_or, map, count_by, IfOk};
ghost use Rattle.aadl_names.specs.Offences.{earliest_from};
ghost use Rattle.aadl_structure.specs.declared.threads.Processes.{Processes as ProcessesValue};
ghost use Rattle.aadl_structure.specs.Parents.{is_thread, has_one_thread, is_single, process_offence, process_offences};

use crate::telling::refused;
use aadl_names::{ClassRow, Held, PartRow, Scope, Test, first_offence};
use aadl_tree::{Category, Implementation, Subcomponent};
use hw_text::{Code, NoMemory, Refusal, Rows};
use std::alloc::Global;

/// Whether processes have one thread, given of which implementations that is true.
#[derive(Clone, Copy)]
struct Processes<'a> {
    scope: Scope<'a>,
    single: &'a [bool],
}

/// The first process without exactly one thread, of which something is told, or the refusal that is
/// known before it.
pub fn first_wrong_process(
    alloc: Global,
    scope: &Scope<'_>,
    known: Option<Refusal>,
) -> Result<Option<Refusal>, NoMemory>
    ensures { IfOk result (λ first. first ≡ earliest_from known (process_offences scope.now.references.now scope.now.tables.now)) }
{
    let tables = scope.tables;
    let single = single_threads(alloc, tables.implementations.rows())?;
    let processes = Processes {
        scope: *scope,
        single: single.rows(),
    };
    let first = first_offence(alloc, &processes, tables.subcomponents.rows(), known)?;
    Ok(first)
}

impl<'a, 'b> Test<PartRow<'b, Subcomponent>> for Processes<'a> {
    ghost offence_of = { λ (test : ProcessesValue). process_offence test.scope.references.now test.scope.tables.now test.single.now };

    fn offence(
        &self,
        alloc: Global,
        row: &PartRow<'b, Subcomponent>,
    ) -> Result<Option<Refusal>, NoMemory> {
        let child = row.part.get();
        if child.category != Category::Process {
            return Ok(None);
        }
        let scope = &self.scope;
        let Some(class) = scope
            .references
            .means(alloc, scope.tables, Category::Process, &child.class)?
        else {
            return Ok(None);
        };
        if is_single(self.single, class) {
            return Ok(None);
        }
        let name = &child.name;
        refused(alloc, Code::ModelWrongParent, name.place, name.name.rows())
    }
}

/// Whether this is an implementation of one thread.
fn is_single(single: &[bool], class: ClassRow) -> bool
    ensures { result ≡ is_single single.now class }
{
    match class {
        ClassRow::Base | ClassRow::Type(_) => false,
        ClassRow::Implementation(number) => match single.get(number) {
            Some(&single) => single,
            None => false,
        },
    }
}

/// Which implementations have one thread.
fn single_threads(
    alloc: Global,
    implementations: &[Held<'_, Implementation>],
) -> Result<Rows<bool>, NoMemory>
    ensures { IfOk result (λ single. single ≡ map has_one_thread implementations.now) }
{
    let mut single = Rows::new(alloc);
    for implementation in implementations {
        single.push(has_one_thread(implementation.get()))?;
    }
    Ok(single)
}

fn has_one_thread(implementation: &Implementation) -> bool
    ensures { result ≡ has_one_thread implementation.now }
{
    let mut threads: usize = 0;
    for subcomponent in implementation.subcomponents.rows() {
        if subcomponent.category == Category::Thread {
            threads += 1;
        }
    }
    threads == 1
}
