//! Architectures written as rows, a domain, a port or a link each.

ghost use Rattle.std.specs.Prelude.{◌≡◌, IfOk};
ghost use Rattle.arch_model.specs.BaseTypes.{base_rows};

use crate::row_parts::{last_domain, port_named};
use crate::row_words::{is_first, kind_of, name_of, role_of, small, time};
use arch_fit::is_fit;
use arch_model::{
    Arch, ArchParts, EVENT_TYPE, Kind, Link, LinkList, Origin, OriginList, Pd, PdId, PdList, Port,
    PortList, base_rows,
};
use case_files::{Trouble, pieces};
use hw_text::{ByteList, Place, TextBuf};
use std::alloc::Global;

/// The frame period, and the period of a thread of which none is told, in picoseconds.
const FRAME: u64 = 1_000_000_000;

/// The place of Integer_32, the type of all ports but those of events.
const VALUE_TYPE: u32 = 3;

/// What the row of a domain says of time: its period and upper time in picoseconds, and the line
/// of its thread's name in the model.
#[derive(Drop)]
struct Times {
    period: u64,
    upper: u64,
    line: u32,
}

/// The architecture of these rows.
pub fn arch_of_rows(alloc: Global, text: &[u8]) -> Result<Arch, Trouble> {
    let mut parts = no_parts(alloc)?;
    for row in pieces(alloc, text, b'\n')?.rows() {
        add_row(alloc, &mut parts, row.rows())?;
    }
    if !is_fit(&parts) {
        return Err(Trouble::BadLine);
    }
    Ok(Arch::new(alloc, parts)?)
}

fn no_parts(alloc: Global) -> Result<ArchParts, Trouble>
    ensures { IfOk result (λ parts. parts.types ≡ base_rows) }
{
    Ok(ArchParts {
        pds: PdList::new(alloc),
        ports: PortList::new(alloc),
        links: LinkList::new(alloc),
        types: base_rows(alloc)?,
        frame: FRAME,
        origins: OriginList::new(alloc),
    })
}

fn add_row(alloc: Global, parts: &mut ArchParts, row: &[u8]) -> Result<(), Trouble>
    ensures { parts.new.types ≡ parts.old.types }
{
    let words = pieces(alloc, row, b' ')?;
    let Some((kind, rest)) = words.rows().split_first() else {
        return Err(Trouble::BadLine);
    };
    match kind.rows() {
        b"domain" => add_domain(alloc, parts, rest),
        b"port" => add_port(alloc, parts, rest),
        b"link" => add_link(parts, rest),
        _ => Err(Trouble::BadLine),
    }
}

fn add_domain(alloc: Global, parts: &mut ArchParts, words: &[ByteList]) -> Result<(), Trouble>
    ensures { parts.new.types ≡ parts.old.types }
{
    let times = match words {
        [_, _] => Times {
            period: FRAME,
            upper: 0,
            line: 1,
        },
        [_, _, period, upper, line] => Times {
            period: time(period)?,
            upper: time(upper)?,
            line: small(line)?,
        },
        _ => return Err(Trouble::BadLine),
    };
    let [name, role, ..] = words else {
        return Err(Trouble::BadLine);
    };
    parts.origins.push(origin(alloc, name, times.line)?)?;
    parts.pds.push(Pd {
        name: name_of(alloc, name)?,
        role: role_of(role)?,
        period: times.period,
        upper: times.upper,
    })?;
    Ok(())
}

/// Where a domain comes from: a thread type of its name, in this line.
fn origin(alloc: Global, name: &ByteList, line: u32) -> Result<Origin, Trouble> {
    let mut thread = TextBuf::new(alloc);
    thread.word(name.rows())?;
    Ok(Origin {
        package: TextBuf::new(alloc),
        thread,
        at: Place { line, column: 1 },
        has_annex: false,
        annex: ByteList::new(alloc),
        annex_at: Place::START,
    })
}

fn add_port(alloc: Global, parts: &mut ArchParts, words: &[ByteList]) -> Result<(), Trouble>
    ensures { parts.new.types ≡ parts.old.types }
{
    let [name, way, kind, size, takes] = words else {
        return Err(Trouble::BadLine);
    };
    let kind = kind_of(kind)?;
    let port = Port {
        owner: last_domain(parts)?,
        name: name_of(alloc, name)?,
        outward: is_first(way, b"out", b"in")?,
        kind,
        ty: if kind == Kind::Event {
            EVENT_TYPE
        } else {
            VALUE_TYPE
        },
        size: small(size)?,
        all: is_first(takes, b"all", b"one")?,
    };
    parts.ports.push(port)?;
    Ok(())
}

fn add_link(parts: &mut ArchParts, words: &[ByteList]) -> Result<(), Trouble>
    ensures { parts.new.types ≡ parts.old.types }
{
    let [sender, from, receiver, to] = words else {
        return Err(Trouble::BadLine);
    };
    let link = Link {
        from: port_named(parts, sender, from)?,
        to: port_named(parts, receiver, to)?,
    };
    parts.links.push(link)?;
    Ok(())
}
