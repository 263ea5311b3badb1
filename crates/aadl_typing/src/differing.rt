//! Connections whose ends carry different types.

ghost use Rattle.std.specs.Prelude.{◌≡◌, slice_index_or, IfOk};
ghost use Rattle.aadl_typing.specs.Differing.{differ, end_data, difference_offence, IsFirstDifference};

use crate::data_graph::{nexts_of, payloads_of};
use crate::ends::ends_of;
use crate::refusals::at_name;
use aadl_names::{PartRow, Scope, Test, at_row, first_offence};
use aadl_tree::{Connection, ConnectionEnd};
use hw_text::{Code, NoMemory, Refusal};
use std::alloc::Global;

/// The condition that both ends of a connection carry one type.
#[derive(Clone, Copy)]
struct Difference<'a> {
    scope: Scope<'a>,
    /// The data that each port carries.
    payloads: &'a [Option<usize>],
    /// The types to which the data lead.
    types: &'a [usize],
}

impl<'a> Difference<'a> {
    /// The data at an end of a connection.
    fn data(&self, implementation: usize, end: &ConnectionEnd) -> Option<usize>
        ensures { result ≡ end_data self.now.scope.references.now self.now.scope.resolved.now self.now.payloads.now implementation end.now }
    {
        let port = self.scope.end(implementation, end)?;
        at_row(self.payloads, port)
    }

    fn differ(&self, one: Option<usize>, other: Option<usize>) -> bool
        ensures { result ≡ differ self.now.types.now one other }
    {
        match (one, other) {
            (Some(one), Some(other)) => self.type_of(one) != self.type_of(other),
            _ => false,
        }
    }

    fn type_of(&self, row: usize) -> usize
        ensures { result ≡ slice_index_or self.now.types.now row row }
    {
        match self.types.get(row) {
            Some(found) => *found,
            None => row,
        }
    }
}

impl<'a, 'b> Test<PartRow<'b, Connection>> for Difference<'a> {
    ghost offence_of = { λ test. difference_offence test.scope.references.now test.scope.resolved.now test.payloads.now test.types.now };

    fn offence(
        &self,
        alloc: Global,
        row: &PartRow<'b, Connection>,
    ) -> Result<Option<Refusal>, NoMemory> {
        let connection = row.part.get();
        let from = self.data(row.owner, &connection.from);
        let to = self.data(row.owner, &connection.to);
        if self.differ(from, to) {
            let code = Code::ModelTypeDiffers;
            Ok(Some(at_name(alloc, code, &connection.name)?))
        } else {
            Ok(None)
        }
    }
}

/// The first connection in the text whose ends carry different types.
pub fn first_type_difference(alloc: Global, scope: &Scope<'_>) -> Result<Option<Refusal>, NoMemory>
    ensures { IfOk result (IsFirstDifference scope.now.references.now scope.now.resolved.now scope.now.tables.now) }
{
    let nexts = nexts_of(alloc, scope)?;
    let types = ends_of(alloc, nexts.rows())?;
    let payloads = payloads_of(alloc, scope)?;
    let test = Difference {
        scope: *scope,
        payloads: payloads.rows(),
        types: types.rows(),
    };
    let first = first_offence(alloc, &test, scope.tables.connections.rows(), None)?;
    Ok(first)
}
