//! The ports of a device type.

ghost use Rattle.std.specs.Prelude.{◌≡◌, IfOk};
ghost use Rattle.hamr_cli.specs.Parts.{is_integer_32, is_thin_port, way_of, feature_of};

use crate::package::part::ThinPart;
use crate::package::queue::queue_of;
use crate::thin::feature::{Feature, Way};
use aadl_tree::{Association, Class, Direction, PortKind};
use hw_text::{BaseType, NoMemory, Rows};
use std::alloc::Global;

impl ThinPart<aadl_tree::Feature> for Feature {
    ghost use Rattle.hamr_cli.specs.Parts.{feature_of};

    ghost part_of = { feature_of };

    fn of(_alloc: Global, tree: &aadl_tree::Feature) -> Result<Option<Self>, NoMemory> {
        feature_of(tree)
    }
}

#[tactic(auto, unfolding(crate::specs::Parts::feature_of))]
fn feature_of(tree: &aadl_tree::Feature) -> Result<Option<Feature>, NoMemory>
    ensures { IfOk result (λ found. found ≡ feature_of tree.now) }
{
    let Some(way) = way_of(tree.direction, &tree.own) else {
        return Ok(None);
    };
    if !is_thin_port(&tree.kind) {
        return Ok(None);
    }
    let name = tree.name.name.copy()?;
    Ok(Some(Feature { name, way }))
}

fn way_of(direction: Direction, own: &Option<Rows<Association>>) -> Option<Way>
    ensures { result ≡ way_of direction own.now }
{
    match (direction, own) {
        (Direction::Out, None) => Some(Way::Out),
        (Direction::Out, Some(_)) => None,
        (Direction::In, None) => Some(Way::In),
        (Direction::In, Some(own)) => queue_of(own.rows()),
    }
}

fn is_thin_port(kind: &PortKind) -> bool
    ensures { result ≡ is_thin_port kind.now }
{
    match kind {
        PortKind::EventData(class) => is_integer_32(class),
        PortKind::Data(_) | PortKind::Event => false,
    }
}

fn is_integer_32(class: &Class) -> bool
    ensures { result ≡ is_integer_32 class.now }
{
    matches!(class, Class::Base(_, BaseType::Integer32))
}
