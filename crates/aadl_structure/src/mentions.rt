//! The references of all property associations.

ghost use Rattle.std.specs.Prelude.{◌≡◌, ◌++◌, flat_map, map, IfOk, OnOk};
ghost use Rattle.aadl_structure.specs.declared.mention.Mention.TheVariants as mention;
ghost use Rattle.aadl_structure.specs.Mentions.{inside, around, asked_by, association_mentions, mentions_of};

use crate::classes::classes_inside;
use crate::mention::Mention;
use crate::values::{push_value, push_values};
use aadl_names::{AssociationRow, ClassRow, Element, Held, Scope, at_row};
use aadl_tree::{Association, Category, Path};
use hw_text::{NoMemory, Rows};
use std::alloc::Global;

/// The references of the property associations of a model.
pub fn mentions<'a>(alloc: Global, scope: &Scope<'a>) -> Result<Rows<Mention<'a>>, NoMemory>
    ensures { IfOk result (λ mentions. mentions ≡ mentions_of scope.now.references.now scope.now.tables.now) }
{
    let classes = classes_inside(alloc, scope)?;
    let tables = scope.tables;
    let mentions = mentions_in(alloc, classes.rows(), tables.associations.rows())?;
    Ok(mentions)
}

/// Those of these associations, given what the classes of subcomponents mean.
fn mentions_in<'a>(
    alloc: Global,
    classes: &[Rows<Option<ClassRow>>],
    associations: &[AssociationRow<'a>],
) -> Result<Rows<Mention<'a>>, NoMemory>
    ensures { IfOk result (λ mentions. mentions ≡ flat_map (association_mentions classes.now) associations.now) }
{
    let mut mentions = Rows::new(alloc);
    for row in associations {
        push_association(&mut mentions, classes, row)?;
    }
    Ok(mentions)
}

#[tactic(auto, unfolding(crate::specs::Mentions::association_mentions))]
fn push_association<'a>(
    mentions: &mut Rows<Mention<'a>>,
    classes: &[Rows<Option<ClassRow>>],
    row: &AssociationRow<'a>,
) -> Result<(), NoMemory>
    ensures { OnOk result (mentions.new ≡ mentions.old ++ association_mentions classes.now row.now) }
{
    let association = row.association.get();
    let around = around(row.holder);
    let asked = asked_by(association);
    push_paths(
        mentions,
        inside(classes, row.holder),
        association.applies_to.rows(),
    )?;
    push_value(mentions, around, asked, &association.first)?;
    push_values(mentions, around, asked, association.others.rows())
}

fn push_paths<'a>(
    mentions: &mut Rows<Mention<'a>>,
    from: Option<ClassRow>,
    paths: &'a [Path],
) -> Result<(), NoMemory>
    ensures { OnOk result (mentions.new ≡ mentions.old ++ map (mention.Path from) paths.now) }
{
    for path in paths {
        mentions.push(Mention::Path(from, Held::new(path)))?;
    }
    Ok(())
}

/// From where the paths of `applies to` count.
fn inside(classes: &[Rows<Option<ClassRow>>], holder: Element) -> Option<ClassRow>
    ensures { result ≡ inside classes.now holder }
{
    match holder {
        Element::Type(number) => Some(ClassRow::Type(number)),
        Element::Implementation(number) => Some(ClassRow::Implementation(number)),
        Element::Subcomponent(owner, number) => match classes.get(owner) {
            Some(own) => at_row(own.rows(), number),
            None => None,
        },
        Element::Feature(_, _) | Element::Connection(_, _) => None,
    }
}

/// From where the paths of `reference` count.
fn around(holder: Element) -> ClassRow
    ensures { result ≡ around holder }
{
    match holder {
        Element::Type(owner) | Element::Feature(owner, _) => ClassRow::Type(owner),
        Element::Implementation(owner)
        | Element::Subcomponent(owner, _)
        | Element::Connection(owner, _) => ClassRow::Implementation(owner),
    }
}

/// The category that is asked of classifiers.
fn asked_by(association: &Association) -> Option<Category>
    ensures { result ≡ asked_by association.now }
{
    if association.property.last().rows() == b"base_type".as_slice() {
        Some(Category::Data)
    } else {
        None
    }
}
