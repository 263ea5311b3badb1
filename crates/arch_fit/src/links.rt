//! Which links fit one another and their ports.

ghost use Rattle.std.specs.Prelude.{◌≢◌, All, AllPairs, IsTrue};
ghost use Rattle.arch_model.specs.Arch.{IsBefore, IsLink, Joins};
ghost use Rattle.arch_model.specs.declared.link.Link.{Link as LinkValue};

use arch_model::{Link, Port, TypeRow};

/// Whether each of these links is one.
pub fn are_links(ports: &[Port], types: &[TypeRow], links: &[Link]) -> bool
    ensures { IsTrue result → All (IsLink ports.now types.now) links.now }
{
    match links {
        [link, rest @ ..] => is_link(ports, types, link) && are_links(ports, types, rest),
        [] => true,
    }
}

/// Whether the link joins two ports.
fn is_link(ports: &[Port], types: &[TypeRow], link: &Link) -> bool
    ensures { IsTrue result → IsLink ports.now types.now link.now }
{
    match (
        ports.get(link.from.0 as usize),
        ports.get(link.to.0 as usize),
    ) {
        (Some(from), Some(to)) => joins(types, from, to),
        _ => false,
    }
}

/// Whether a link may lead from the one port to the other.
fn joins(types: &[TypeRow], from: &Port, to: &Port) -> bool
    ensures { IsTrue result → Joins types.now from.now to.now }
{
    from.outward
        && !to.outward
        && from.kind == to.kind
        && from.owner.0 != to.owner.0
        && from.ty == to.ty
}

/// Whether these links go by the ports that they leave, and then by those where they end.
pub fn go_by_ports(links: &[Link]) -> bool
    ensures { IsTrue result → AllPairs IsBefore links.now }
{
    match links {
        [link, rest @ ..] => goes_before(link, rest) && go_by_ports(rest),
        [] => true,
    }
}

fn goes_before(link: &Link, others: &[Link]) -> bool
    ensures { IsTrue result → All (IsBefore link.now) others.now }
{
    match others {
        [later, rest @ ..] => is_before(link, later) && goes_before(link, rest),
        [] => true,
    }
}

fn is_before(link: &Link, later: &Link) -> bool
    ensures { IsTrue result → IsBefore link.now later.now }
{
    link.from.0 < later.from.0 || (link.from.0 == later.from.0 && link.to.0 < later.to.0)
}

/// Whether no two of these links end at one port.
pub fn have_one_sender(links: &[Link]) -> bool
    ensures { IsTrue result → AllPairs (λ (link : LinkValue) (other : LinkValue). link.to.0 ≢ other.to.0) links.now }
{
    match links {
        [link, rest @ ..] => ends_alone(link, rest) && have_one_sender(rest),
        [] => true,
    }
}

fn ends_alone(link: &Link, others: &[Link]) -> bool
    ensures { IsTrue result → All (λ (other : LinkValue). link.now.to.0 ≢ other.to.0) others.now }
{
    match others {
        [other, rest @ ..] => are_apart(link, other) && ends_alone(link, rest),
        [] => true,
    }
}

fn are_apart(link: &Link, other: &Link) -> bool
    ensures { IsTrue result → link.now.to.0 ≢ other.now.to.0 }
{
    link.to.0 != other.to.0
}
