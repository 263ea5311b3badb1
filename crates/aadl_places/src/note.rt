//! Notes of what is ignored, in text order.

ghost use Rattle.std.specs.Prelude.{◌≡◌, ◌≤◌, ◌++◌, map, length, IfOk, OnOk};
ghost use Rattle.aadl_places.specs.Notes.{association_note, annex_note, count_before, merged, notes_of};

use crate::contract_annexes::ignored_annexes;
use crate::ignored::ignored_associations;
use aadl_names::{Held, Scope};
use aadl_tree::{Annex, Association};
use hw_text::{NoMemory, Place, Rows, TextBuf};
use std::alloc::Global;

/// An association or an annex that is ignored: where it stands, and its name.
#[derive(Drop)]
pub struct Note {
    pub place: Place,
    pub name: TextBuf,
}

/// The notes of all that is ignored, in text order.
pub fn notes(alloc: Global, scope: &Scope<'_>) -> Result<Rows<Note>, NoMemory>
    ensures { IfOk result (λ notes. notes ≡ notes_of scope.now.references.now scope.now.resolved.now scope.now.tables.now) }
{
    let associations = ignored_associations(alloc, scope)?;
    let annexes = ignored_annexes(alloc, scope.tables)?;
    merged(alloc, associations.rows(), annexes.rows())
}

/// The notes of associations, each behind those of the annexes that stand before it.
fn merged(
    alloc: Global,
    associations: &[Held<'_, Association>],
    annexes: &[Held<'_, Annex>],
) -> Result<Rows<Note>, NoMemory>
    ensures { IfOk result (λ notes. notes ≡ merged associations.now annexes.now) }
{
    let mut notes = Rows::new(alloc);
    let mut told = 0_usize;
    for association in associations {
        let note = association_note(alloc, association.get())?;
        let (_, rest) = annexes.split_at(told);
        let count = count_before(note.place, rest);
        let (before, _) = rest.split_at(count);
        push_annexes(&mut notes, before)?;
        notes.push(note)?;
        told += count;
    }
    let (_, rest) = annexes.split_at(told);
    push_annexes(&mut notes, rest)?;
    Ok(notes)
}

/// Appends the notes of annexes.
fn push_annexes(notes: &mut Rows<Note>, annexes: &[Held<'_, Annex>]) -> Result<(), NoMemory>
    ensures { OnOk result (notes.new ≡ notes.old ++ map annex_note annexes.now) }
{
    let alloc = notes.allocator();
    for annex in annexes {
        notes.push(annex_note(alloc, annex.get())?)?;
    }
    Ok(())
}

/// How many annexes at the front stand before a place.
fn count_before(place: Place, annexes: &[Held<'_, Annex>]) -> usize
    ensures value { result ≡ count_before place annexes.now }
    ensures bound { result ≤ length annexes.now }
{
    for (number, annex) in annexes.iter().enumerate() {
        if !annex.get().name.place.is_before(place) {
            return number;
        }
    }
    annexes.len()
}

fn association_note(alloc: Global, association: &Association) -> Result<Note, NoMemory>
    ensures { IfOk result (λ note. note ≡ association_note association.now) }
{
    let name = association.property.text(alloc)?;
    Ok(Note {
        place: association.property.first.place,
        name,
    })
}

fn annex_note(alloc: Global, annex: &Annex) -> Result<Note, NoMemory>
    ensures { IfOk result (λ note. note ≡ annex_note annex.now) }
{
    let mut name = TextBuf::new(alloc);
    name.word(annex.name.name.rows())?;
    Ok(Note {
        place: annex.name.place,
        name,
    })
}
