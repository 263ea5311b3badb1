//! Connections.

ghost use Rattle.std.specs.Prelude.{◌≡◌, IfOk};
ghost use Rattle.hamr_cli.specs.Parts.{tip_of, connection_of};

use crate::package::part::ThinPart;
use crate::thin::connection::{Connection, Tip};
use aadl_tree::ConnectionEnd;
use hw_text::NoMemory;
use std::alloc::Global;

impl ThinPart<aadl_tree::Connection> for Connection {
    ghost use Rattle.hamr_cli.specs.Parts.{connection_of};

    ghost part_of = { connection_of };

    fn of(_alloc: Global, tree: &aadl_tree::Connection) -> Result<Option<Self>, NoMemory> {
        connection_of(tree)
    }
}

#[tactic(auto, unfolding(crate::specs::Parts::connection_of))]
fn connection_of(tree: &aadl_tree::Connection) -> Result<Option<Connection>, NoMemory>
    ensures { IfOk result (λ found. found ≡ connection_of tree.now) }
{
    let Some(from) = tip_of(&tree.from)? else {
        return Ok(None);
    };
    let Some(to) = tip_of(&tree.to)? else {
        return Ok(None);
    };
    if tree.own.is_some() {
        return Ok(None);
    }
    let name = tree.name.name.copy()?;
    Ok(Some(Connection { name, from, to }))
}

/// The port of a subcomponent at which a connection ends.
fn tip_of(end: &ConnectionEnd) -> Result<Option<Tip>, NoMemory>
    ensures { IfOk result (λ found. found ≡ tip_of end.now) }
{
    match &end.port {
        Some(port) => Ok(Some(Tip {
            component: end.first.name.copy()?,
            port: port.copy()?,
        })),
        None => Ok(None),
    }
}
