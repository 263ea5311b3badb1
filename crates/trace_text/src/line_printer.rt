//! How lines are printed.

ghost use Rattle.std.specs.Prelude.{◌≡◌, ◌<◌, ◌++◌, ◌∷◌, [], List, OnOk, length, map};
ghost use Rattle.trace_text.specs.declared.piece.Piece.{Piece as AnyPiece};
ghost use Rattle.trace_text.specs.Lines.{line_text, object_text, list_text, value_text, clause_name, port_name, spot_text, truth_text};
ghost use Rattle.trace_text.specs.Pieces.{ArePiecesOf, comma, filled, separated};

use crate::names::{clause_name, domain_name, port_name};
use crate::pieces::port_pieces;
use crate::value_printer::{print_value, print_values};
use crate::{Line, Piece};
use arch_model::{Arch, PdId, PortId, TypeRow};
use gumbo_check::ContractList;
use hw_text::{NoMemory, TextBuf};
use hw_types::{Spot, Value, ValueList};
use rts_rules::What;

/// Appends a line of a trace, its line end too.
pub fn print_line(
    out: &mut TextBuf,
    arch: &Arch,
    contracts: &ContractList,
    line: &Line,
) -> Result<(), NoMemory>
    requires { line.now.event.who.0 < length contracts.now }
    ensures { OnOk result ((all : List (List AnyPiece)) → ArePiecesOf arch.now.types all →
        out.new ≡ out.old ++ line_text arch.now all contracts.now line.now) }
{
    let who = line.event.who;
    print_spot(out, line.spot)?;
    out.word(domain_name(arch, who))?;
    out.word(b" ")?;
    out.word(line.event.what.rule().word().as_bytes())?;
    print_object(out, arch, contracts, who, &line.event.what)?;
    out.newline()
}

/// Appends frame and slot, and a space behind each.
fn print_spot(out: &mut TextBuf, spot: Spot) -> Result<(), NoMemory>
    ensures { OnOk result (out.new ≡ out.old ++ spot_text spot) }
{
    out.number(i128::from(spot.frame))?;
    out.word(b" ")?;
    out.number(i128::from(spot.slot))?;
    out.word(b" ")
}

/// Appends what stands behind the word of an event.
fn print_object(
    out: &mut TextBuf,
    arch: &Arch,
    contracts: &ContractList,
    who: PdId,
    what: &What,
) -> Result<(), NoMemory>
    requires { who.0 < length contracts.now }
    ensures { OnOk result ((all : List (List AnyPiece)) → ArePiecesOf arch.now.types all →
        out.new ≡ out.old ++ object_text arch.now all contracts.now who what.now) }
{
    match what {
        What::Tick
        | What::Init
        | What::Begin
        | What::Void
        | What::Compute
        | What::Send
        | What::End => Ok(()),
        What::Receive(port, values) => {
            print_port(out, arch, *port)?;
            print_list(out, arch, *port, values)
        }
        What::Put(port, value) | What::Release(port, value) => {
            print_port(out, arch, *port)?;
            print_item(out, arch, *port, value)
        }
        What::Verdict(clause, holds) => print_verdict(out, contracts, who, *clause, *holds),
    }
}

/// Appends the name of a port, between two spaces.
fn print_port(out: &mut TextBuf, arch: &Arch, port: PortId) -> Result<(), NoMemory>
    ensures { OnOk result (out.new ≡ out.old ++ 32 ∷ (port_name arch.now port ++ 32 ∷ [])) }
{
    out.word(b" ")?;
    out.word(port_name(arch, port))?;
    out.word(b" ")
}

/// Appends a value of the port's type.
fn print_item(out: &mut TextBuf, arch: &Arch, port: PortId, value: &Value) -> Result<(), NoMemory>
    ensures { OnOk result ((all : List (List AnyPiece)) → ArePiecesOf arch.now.types all →
        out.new ≡ out.old ++ value_text arch.now all port value.now) }
{
    let pieces = port_pieces(value.allocator(), arch, port)?;
    print_value(out, arch.types(), pieces.rows(), value.rows())
}

/// Appends values of the port's type in square brackets.
fn print_list(
    out: &mut TextBuf,
    arch: &Arch,
    port: PortId,
    values: &ValueList,
) -> Result<(), NoMemory>
    ensures { OnOk result ((all : List (List AnyPiece)) → ArePiecesOf arch.now.types all →
        out.new ≡ out.old ++ list_text arch.now all port values.now) }
{
    let pieces = port_pieces(values.allocator(), arch, port)?;
    print_bracketed(out, arch.types(), pieces.rows(), values.rows())
}

/// Appends values in square brackets, by the pieces of their type.
fn print_bracketed(
    out: &mut TextBuf,
    types: &[TypeRow],
    pieces: &[Piece],
    values: &[Value],
) -> Result<(), NoMemory>
    ensures { OnOk result (out.new ≡ out.old ++ 91 ∷ (separated comma (map (filled types.now pieces.now) values.now) ++ 93 ∷ [])) }
{
    out.word(b"[")?;
    print_values(out, types, pieces, values)?;
    out.word(b"]")
}

/// Appends the name and the truth of a clause, a space before each.
fn print_verdict(
    out: &mut TextBuf,
    contracts: &ContractList,
    who: PdId,
    clause: u32,
    holds: bool,
) -> Result<(), NoMemory>
    requires { who.0 < length contracts.now }
    ensures { OnOk result (out.new ≡ out.old ++ 32 ∷ (clause_name contracts.now who clause ++ 32 ∷ truth_text holds)) }
{
    out.word(b" ")?;
    out.word(clause_name(contracts, who, clause))?;
    out.word(b" ")?;
    out.word(truth(holds).as_bytes())
}

fn truth(holds: bool) -> &'static str
    ensures { result.now ≡ truth_text holds }
{
    if holds { "true" } else { "false" }
}
