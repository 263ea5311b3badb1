//! Parts of a tree that stand for parts of a thin model.

ghost use Rattle.std.specs.Prelude.{◌≡◌, List, Option, IfOk};
ghost use Rattle.hamr_cli.specs.Parts.{all_of};

use hw_text::{NoMemory, Rows};
use std::alloc::Global;

/// A part of a thin model, as a part of a tree says it.
pub trait ThinPart<T>: Drop {
    ghost part_of: { T → Option Self };

    /// What the part of the tree says, where it is one of a thin model.
    fn of(alloc: Global, tree: &T) -> Result<Option<Self>, NoMemory>
        ensures { IfOk result (λ found. found ≡ part_of tree.now) };
}

/// What each part says, where each is one of a thin model.
pub fn all_of<T, P: ThinPart<T>>(alloc: Global, trees: &[T]) -> Result<Option<Rows<P>>, NoMemory>
    ensures { IfOk result (λ found. found ≡ all_of P.part_of trees.now) }
{
    let mut parts = Rows::new(alloc);
    for tree in trees {
        let Some(part) = P::of(alloc, tree)? else {
            return Ok(None);
        };
        parts.push(part)?;
    }
    Ok(Some(parts))
}
