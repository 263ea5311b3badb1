//! Chains of types, each made of the one before it, laid out by parts alone.

ghost use Rattle.std.specs.Prelude.{IfOk};
ghost use Rattle.hw_types.specs.Extent.{IsExtentOf};
ghost use Rattle.hw_types.specs.declared.ty.Ty.{Ty as AnyType};

use crate::layouts::tell_layout;
use crate::type_text::scalar;
use case_files::{Question, Trouble, count};
use hw_text::{NoMemory, TextBuf};
use hw_types::{Extent, Members, Scalar};
use std::alloc::Global;

/// How a type is made of the one before it.
#[derive(Clone, Copy)]
enum Link {
    /// A struct with it alone.
    Wrapped,
    /// An array of so many.
    Times(u32),
    /// A struct with it, and this scalar behind it.
    Beside(Scalar),
}

/// `chain COUNT SCALAR LINK`: what is known of the type so many links behind the scalar.
pub fn chain(alloc: Global, question: &Question, out: &mut TextBuf) -> Result<(), Trouble> {
    let words = question.words(alloc)?;
    let [links, start, link] = words.rows() else {
        return Err(Trouble::BadLine);
    };
    let Some(links) = count(links.rows()) else {
        return Err(Trouble::BadLine);
    };
    let extent = chained(alloc, links, scalar(start.rows())?, link_of(link.rows())?)?;
    Ok(tell_extent(out, &extent)?)
}

/// `wrapped`, `*COUNT`, or a scalar.
fn link_of(word: &[u8]) -> Result<Link, Trouble> {
    match word {
        b"wrapped" => Ok(Link::Wrapped),
        [b'*', digits @ ..] => match count(digits) {
            Some(times) => Ok(Link::Times(times)),
            None => Err(Trouble::BadLine),
        },
        _ => Ok(Link::Beside(scalar(word)?)),
    }
}

fn chained(alloc: Global, links: u32, start: Scalar, link: Link) -> Result<Extent, NoMemory>
    ensures { IfOk result (λ extent. (ty : AnyType) × IsExtentOf ty extent) }
{
    let mut extent = Extent::of_scalar(alloc, start)?;
    for _ in 0..links {
        extent = linked(alloc, &extent, link)?;
    }
    Ok(extent)
}

/// The type that is made of this one.
fn linked(alloc: Global, extent: &Extent, link: Link) -> Result<Extent, NoMemory>
    requires { (ty : AnyType) × IsExtentOf ty extent.now }
    ensures { IfOk result (λ made. (ty : AnyType) × IsExtentOf ty made) }
{
    match link {
        Link::Wrapped => wrapped(alloc, extent),
        Link::Times(times) => Ok(extent.times(alloc, times)?),
        Link::Beside(scalar) => beside(alloc, extent, &Extent::of_scalar(alloc, scalar)?),
    }
}

/// A struct of one member.
fn wrapped(alloc: Global, only: &Extent) -> Result<Extent, NoMemory>
    requires { (ty : AnyType) × IsExtentOf ty only.now }
    ensures { IfOk result (λ made. (ty : AnyType) × IsExtentOf ty made) }
{
    let members = Members::new(alloc).with(only)?;
    Ok(members.into_extent())
}

/// A struct of two members.
fn beside(alloc: Global, first: &Extent, second: &Extent) -> Result<Extent, NoMemory>
    requires first { (ty : AnyType) × IsExtentOf ty first.now }
    requires second { (ty : AnyType) × IsExtentOf ty second.now }
    ensures { IfOk result (λ made. (ty : AnyType) × IsExtentOf ty made) }
{
    let one = Members::new(alloc).with(first)?;
    let two = one.with(second)?;
    Ok(two.into_extent())
}

/// The layout, or `too wide COUNT align ALIGN`.
fn tell_extent(out: &mut TextBuf, extent: &Extent) -> Result<(), NoMemory> {
    match extent {
        Extent::Laid(layout) => tell_layout(out, layout),
        Extent::TooWide(width) => {
            out.word(b"too wide ")?;
            out.number(i128::from(width.count))?;
            out.word(b" align ")?;
            out.number(i128::from(width.align))?;
            out.newline()
        }
    }
}
