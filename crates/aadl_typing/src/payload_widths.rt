//! Payloads of more scalars than a port may carry.

ghost use Rattle.std.specs.Prelude.{◌≡◌, IfOk};
ghost use Rattle.aadl_names.specs.declared.parts.PartRow.{PartRow as PartRowValue};
ghost use Rattle.aadl_tree.specs.declared.feature.Feature.{Feature as FeatureValue};
ghost use Rattle.aadl_typing.specs.PayloadWidths.{class_offence, port_offence, IsFirstWide};

use crate::refusals::{place_of, too_many_scalars};
use aadl_names::{PartRow, Scope, Test, first_offence};
use aadl_tree::{Category, Class, Feature, PortKind};
use aadl_types::{Extents, Shapes};
use hw_text::{NoMemory, Refusal};
use hw_types::Extent;
use std::alloc::Global;

/// The condition that the payload of a port has no more scalars than are allowed.
#[derive(Clone, Copy)]
struct PayloadWidth<'a> {
    scope: Scope<'a>,
    extents: &'a Extents,
}

impl<'a> PayloadWidth<'a> {
    fn class(&self, alloc: Global, class: &Class) -> Result<Option<Refusal>, NoMemory>
        ensures { IfOk result (λ offence. offence ≡ class_offence self.now.scope.references.now self.now.scope.tables.now self.now.extents.now class.now) }
    {
        let Scope {
            tables,
            references,
            ..
        } = self.scope;
        let Some(row) = references.means(alloc, tables, Category::Data, class)? else {
            return Ok(None);
        };
        match self.extents.at(row) {
            Some(Extent::TooWide(width)) => {
                Ok(Some(too_many_scalars(alloc, place_of(class), width.count)?))
            }
            _ => Ok(None),
        }
    }
}

impl<'a, 'b> Test<PartRow<'b, Feature>> for PayloadWidth<'a> {
    ghost offence_of = { λ test (port : PartRowValue FeatureValue). port_offence test.scope.references.now test.scope.tables.now test.extents.now port.part.kind };

    fn offence(
        &self,
        alloc: Global,
        row: &PartRow<'b, Feature>,
    ) -> Result<Option<Refusal>, NoMemory> {
        match &row.part.get().kind {
            PortKind::Event => Ok(None),
            PortKind::Data(class) | PortKind::EventData(class) => {
                let offence = self.class(alloc, class)?;
                Ok(offence)
            }
        }
    }
}

/// The first class of a port in the text whose data has more scalars than are allowed.
pub fn first_wide_payload(alloc: Global, scope: &Scope<'_>) -> Result<Option<Refusal>, NoMemory>
    ensures { IfOk result (IsFirstWide scope.now.references.now scope.now.tables.now) }
{
    let shapes = Shapes::of(alloc, scope.tables, scope.references)?;
    let extents = Extents::of(alloc, &shapes)?;
    let test = PayloadWidth {
        scope: *scope,
        extents: &extents,
    };
    let first = first_offence(alloc, &test, scope.tables.features.rows(), None)?;
    Ok(first)
}
