//! What the references of a model lead to, row by row.

ghost use Rattle.std.specs.Prelude.{◌≡◌, ℕ, IfOk, Option};
ghost use Rattle.aadl_names.specs.Meanings.{resolved_of, payload_of, type_row, at_row};

use crate::class_row::ClassRow;
use crate::references::References;
use crate::tables::Tables;
use aadl_tree::{Category, PortKind};
use hw_text::{NoMemory, Rows};
use std::alloc::Global;

/// What each implementation, port and subcomponent refers to, in the order of its table.
#[derive(Drop)]
pub struct Resolved {
    /// The type of each implementation.
    pub types: Rows<Option<usize>>,
    /// The data that each port carries.
    pub payloads: Rows<Option<ClassRow>>,
    /// The class of each subcomponent.
    pub classes: Rows<Option<ClassRow>>,
}

impl Resolved {
    pub fn of(
        alloc: Global,
        tables: &Tables<'_>,
        references: &References<'_>,
    ) -> Result<Self, NoMemory>
        ensures { IfOk result (λ resolved. resolved ≡ resolved_of references.now tables.now) }
    {
        Ok(Resolved {
            types: types(alloc, tables, references)?,
            payloads: payloads(alloc, tables, references)?,
            classes: classes(alloc, tables, references)?,
        })
    }

    /// The type of what a classifier refers to.
    pub fn type_row(&self, of: ClassRow) -> Option<usize>
        ensures { result ≡ type_row self.now of }
    {
        match of {
            ClassRow::Base => None,
            ClassRow::Type(number) => Some(number),
            ClassRow::Implementation(number) => at_row(self.types.rows(), number),
        }
    }
}

/// What stands at a row, where there is one.
pub fn at_row<T: Copy>(rows: &[Option<T>], number: usize) -> Option<T>
    ensures { result ≡ at_row rows.now number }
{
    match rows.get(number) {
        Some(found) => *found,
        None => None,
    }
}

fn types(
    alloc: Global,
    tables: &Tables<'_>,
    references: &References<'_>,
) -> Result<Rows<Option<usize>>, NoMemory>
    ensures { IfOk result (λ types. types ≡ (resolved_of references.now tables.now).types) }
{
    let mut types = Rows::new(alloc);
    for implementation in tables.implementations.rows() {
        types.push(references.type_of(tables, implementation.get()))?;
    }
    Ok(types)
}

fn payloads(
    alloc: Global,
    tables: &Tables<'_>,
    references: &References<'_>,
) -> Result<Rows<Option<ClassRow>>, NoMemory>
    ensures { IfOk result (λ payloads. payloads ≡ (resolved_of references.now tables.now).payloads) }
{
    let mut payloads = Rows::new(alloc);
    for port in tables.features.rows() {
        payloads.push(payload(alloc, tables, references, &port.part.get().kind)?)?;
    }
    Ok(payloads)
}

fn payload(
    alloc: Global,
    tables: &Tables<'_>,
    references: &References<'_>,
    kind: &PortKind,
) -> Result<Option<ClassRow>, NoMemory>
    ensures { IfOk result (λ payload. payload ≡ payload_of references.now tables.now kind.now) }
{
    match kind {
        PortKind::Event => Ok(None),
        PortKind::Data(class) | PortKind::EventData(class) => {
            references.means(alloc, tables, Category::Data, class)
        }
    }
}

fn classes(
    alloc: Global,
    tables: &Tables<'_>,
    references: &References<'_>,
) -> Result<Rows<Option<ClassRow>>, NoMemory>
    ensures { IfOk result (λ classes. classes ≡ (resolved_of references.now tables.now).classes) }
{
    let mut classes = Rows::new(alloc);
    for row in tables.subcomponents.rows() {
        let subcomponent = row.part.get();
        classes.push(references.means(alloc, tables, subcomponent.category, &subcomponent.class)?)?;
    }
    Ok(classes)
}
