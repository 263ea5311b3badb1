//! The pieces of a type, listed without going down into it.

ghost use Rattle.std.specs.Prelude.{◌≡◌, ◌<◌, ◌++◌, [], List, IfOk, IfSome, OnOk, Some, length, slice_get};
ghost use Rattle.arch_model.specs.declared.form.Form.TheVariants as any_form;
ghost use Rattle.trace_text.specs.declared.piece.Piece.{Piece as AnyPiece};
ghost use Rattle.trace_text.specs.declared.work.Work.TheVariants as any_work;
ghost use Rattle.trace_text.specs.Lines.{port_pieces};
ghost use Rattle.trace_text.specs.Pieces.{ArePiecesOf, members, pieces_at, pieces_of_row};
ghost use Rattle.trace_text.specs.Working.{all_left, closing, members_pieces, pieces_left};

use crate::work::{Work, WorkList};
use crate::{Piece, PieceList};
use arch_model::{Arch, Form, PortId, TypeRow};
use hw_text::NoMemory;
use std::alloc::Global;

/// More pieces than any memory holds.
const END: u128 = 1 << 64;

/// The pieces of the text of the values of the type at a place.
pub fn pieces_of(alloc: Global, types: &[TypeRow], place: u64) -> Result<PieceList, NoMemory>
    ensures { IfOk result (λ pieces. (all : List (List AnyPiece)) → ArePiecesOf types.now all → pieces ≡ pieces_at all place) }
{
    let mut pieces = PieceList::new(alloc);
    let mut left = WorkList::new(alloc);
    left.push(Work::Whole(place))?;
    for _step in 0..END {
        let Some(work) = left.pop() else {
            return Ok(pieces);
        };
        list_next(types, work, &mut pieces, &mut left)?;
    }
    let _many = pieces.len();
    unreachable!()
}

/// The pieces of the port's type.
pub fn port_pieces(alloc: Global, arch: &Arch, port: PortId) -> Result<PieceList, NoMemory>
    ensures { IfOk result (λ pieces. (all : List (List AnyPiece)) → ArePiecesOf arch.now.types all → pieces ≡ port_pieces arch.now all port) }
{
    match arch.ports().get(port.0 as usize) {
        Some(end) => pieces_of(alloc, arch.types(), u64::from(end.ty)),
        None => Ok(PieceList::new(alloc)),
    }
}

/// Lists the first of the pieces that are left, or some, and keeps the others.
fn list_next(
    types: &[TypeRow],
    work: Work,
    pieces: &mut PieceList,
    left: &mut WorkList,
) -> Result<(), NoMemory>
    ensures listed { OnOk result ((all : List (List AnyPiece)) → ArePiecesOf types.now all →
        pieces.new ++ all_left types.now all left.new [] ≡ pieces.old ++ (pieces_left types.now all work ++ all_left types.now all left.old [])) }
    ensures longer { OnOk result (length pieces.old < length pieces.new) }
{
    match work {
        Work::Whole(place) => match types.get(place as usize) {
            Some(row) => list_whole(types, row, place, pieces, left),
            None => pieces.push(Piece::Byte(b'*')),
        },
        Work::Behind(place, done) => match types.get(place as usize) {
            Some(row) => list_behind(types, row, place, done, pieces, left),
            None => pieces.push(Piece::Byte(b'*')),
        },
    }
}

/// Lists the first piece of the type that a row is.
fn list_whole(
    types: &[TypeRow],
    row: &TypeRow,
    place: u64,
    pieces: &mut PieceList,
    left: &mut WorkList,
) -> Result<(), NoMemory>
    requires { slice_get types.now place ≡ Some row.now }
    ensures listed { OnOk result ((all : List (List AnyPiece)) →
        pieces.new ++ all_left types.now all left.new [] ≡ pieces.old ++ (pieces_of_row all place row.now ++ all_left types.now all left.old [])) }
    ensures longer { OnOk result (length pieces.old < length pieces.new) }
{
    match row.form {
        Form::One(_) => pieces.push(Piece::Scalar(place)),
        Form::Fields => {
            pieces.push(Piece::Byte(b'{'))?;
            begin_members(types, row, place, left)
        }
        Form::Times(_) => {
            pieces.push(Piece::Byte(b'('))?;
            begin_members(types, row, place, left)
        }
        Form::Nothing => pieces.push(Piece::Byte(b'*')),
    }
}

/// Leaves the first member, and then what stands behind it.
fn begin_members(
    types: &[TypeRow],
    row: &TypeRow,
    place: u64,
    left: &mut WorkList,
) -> Result<(), NoMemory>
    requires { slice_get types.now place ≡ Some row.now }
    ensures { OnOk result ((all : List (List AnyPiece)) →
        all_left types.now all left.new [] ≡ members_pieces all row.now ++ all_left types.now all left.old []) }
{
    left.push(Work::Behind(place, 1))?;
    match member(row, 0) {
        Some(part) => left.push(Work::Whole(part)),
        None => Ok(()),
    }
}

/// Lists what separates the next member from those before it, or what closes the type.
fn list_behind(
    types: &[TypeRow],
    row: &TypeRow,
    place: u64,
    done: u64,
    pieces: &mut PieceList,
    left: &mut WorkList,
) -> Result<(), NoMemory>
    requires { slice_get types.now place ≡ Some row.now }
    ensures listed { OnOk result ((all : List (List AnyPiece)) →
        pieces.new ++ all_left types.now all left.new [] ≡ pieces.old ++ (pieces_left types.now all (any_work.Behind place done) ++ all_left types.now all left.old [])) }
    ensures longer { OnOk result (length pieces.old < length pieces.new) }
{
    match member(row, done) {
        Some(part) => {
            pieces.push(Piece::Byte(b','))?;
            pieces.push(Piece::Byte(b' '))?;
            left.push(Work::Behind(place, done + 1))?;
            left.push(Work::Whole(part))
        }
        None => pieces.push(Piece::Byte(closing(row.form))),
    }
}

/// The place of the type of a member, by the member's number.
fn member(row: &TypeRow, number: u64) -> Option<u64>
    ensures place { result ≡ slice_get (members row.now.form row.now.parts) number }
    ensures within { IfSome result (λ place. number < 18446744073709551615) }
{
    match row.form {
        Form::Fields => row.parts.rows().get(number as usize).copied(),
        Form::Times(times) => element(row.parts.rows(), times, number),
        Form::One(_) | Form::Nothing => None,
    }
}

/// The place of the type of an element, by the element's number.
fn element(parts: &[u64], times: u32, number: u64) -> Option<u64>
    ensures place { result ≡ slice_get (members (any_form.Times times) parts.now) number }
    ensures within { IfSome result (λ place. number < 18446744073709551615) }
{
    let (&part, _) = parts.split_first()?;
    if number < u64::from(times) {
        Some(part)
    } else {
        None
    }
}

/// The byte that closes a type of this form.
fn closing(form: Form) -> u8
    ensures { result ≡ closing form }
{
    match form {
        Form::Fields => b'}',
        Form::Times(_) => b')',
        Form::One(_) | Form::Nothing => b'*',
    }
}
