//! Connections whose ends differ in kind or do not fit in direction.

ghost use Rattle.std.specs.Prelude.{◌≡◌, None, IfOk, option_copied};
ghost use Rattle.aadl_names.specs.Offences.{earliest_from};
ghost use Rattle.aadl_structure.specs.declared.kinds.Kinds.{Kinds as KindsValue};
ghost use Rattle.aadl_structure.specs.Kinds.{is_same_kind, is_fitting, end_port, ends_fit, kind_offence, kind_offences};

use crate::telling::refused;
use aadl_names::{PartRow, Scope, Test, first_offence};
use aadl_tree::{Connection, ConnectionEnd, Direction, Feature, PortKind};
use hw_text::{Code, Name, NoMemory, Refusal};
use std::alloc::Global;

/// Whether the ends of connections fit.
#[derive(Clone, Copy)]
struct Kinds<'a> {
    scope: Scope<'a>,
}

/// The first connection whose ends are there and do not fit in kind and direction.
pub fn first_kind_difference(alloc: Global, scope: &Scope<'_>) -> Result<Option<Refusal>, NoMemory>
    ensures { IfOk result (λ first. first ≡ earliest_from None (kind_offences scope.now.references.now scope.now.resolved.now scope.now.tables.now)) }
{
    let test = Kinds { scope: *scope };
    let first = first_offence(alloc, &test, scope.tables.connections.rows(), None)?;
    Ok(first)
}

impl<'a, 'b> Test<PartRow<'b, Connection>> for Kinds<'a> {
    ghost offence_of = { λ (test : KindsValue). kind_offence test.scope.references.now test.scope.resolved.now test.scope.tables.now };

    fn offence(
        &self,
        alloc: Global,
        row: &PartRow<'b, Connection>,
    ) -> Result<Option<Refusal>, NoMemory> {
        let connection = row.part.get();
        let Some(from) = end_port(&self.scope, row.owner, &connection.from) else {
            return Ok(None);
        };
        let Some(to) = end_port(&self.scope, row.owner, &connection.to) else {
            return Ok(None);
        };
        if ends_fit(connection, from, to) {
            return Ok(None);
        }
        let name = &connection.name;
        refused(alloc, Code::ModelKindDiffers, name.place, name.name.rows())
    }
}

/// The port that an end means.
fn end_port<'a>(
    scope: &Scope<'a>,
    implementation: usize,
    end: &ConnectionEnd,
) -> Option<&'a Feature>
    ensures { option_copied result ≡ end_port scope.now.references.now scope.now.resolved.now scope.now.tables.now implementation end.now }
{
    let tables = scope.tables;
    match tables.features.rows().get(scope.end(implementation, end)?) {
        Some(row) => Some(row.part.get()),
        None => None,
    }
}

fn ends_fit(connection: &Connection, from: &Feature, to: &Feature) -> bool
    ensures { result ≡ ends_fit connection.now from.now to.now }
{
    is_same_kind(&from.kind, &to.kind)
        && is_fitting(
            &connection.from.port,
            &connection.to.port,
            from.direction,
            to.direction,
        )
}

fn is_same_kind(from: &PortKind, to: &PortKind) -> bool
    ensures { result ≡ is_same_kind from.now to.now }
{
    match (from, to) {
        (PortKind::Data(_), PortKind::Data(_)) => true,
        (PortKind::Event, PortKind::Event) => true,
        (PortKind::EventData(_), PortKind::EventData(_)) => true,
        _ => false,
    }
}

/// Whether the directions fit across, down or up: the names are those behind the dots.
fn is_fitting(from: &Option<Name>, to: &Option<Name>, leaves: Direction, enters: Direction) -> bool
    ensures { result ≡ is_fitting from.now to.now leaves enters }
{
    match (from, to, leaves, enters) {
        (Some(_), Some(_), Direction::Out, Direction::In) => true,
        (None, Some(_), Direction::In, Direction::In) => true,
        (Some(_), None, Direction::Out, Direction::Out) => true,
        _ => false,
    }
}
