//! What an instance of a model consists of: its frame period, its domains, and the links to their ports.

ghost use Rattle.std.specs.Prelude.{◌≡◌};
ghost use Rattle.aadl_links.specs.Wires.{feature_keys, subcomponent_keys};

use aadl_domains::{Path, Sought, listed, roots, rows_of, thread_of};
use aadl_links::{Source, Wiring};
use aadl_names::{ClassRow, Scope, at_row};
use aadl_timing::{Instance, Timing, timing_of};
use aadl_tree::{Category, Direction, Feature, Subcomponent};
use aadl_values::Dispatch;
use case_files::{tell_line, tell_number};
use hw_text::{NoMemory, Rows, TextBuf};
use std::alloc::Global;

/// Tells an instance, and looks up what its paths lead to.
#[derive(Clone, Copy)]
struct Teller<'a, 'b> {
    scope: Scope<'a>,
    wiring: &'b Wiring<'a>,
}

/// For the first implementation with which an instance may begin: the frame period, and each domain with
/// its timing and its in ports, behind each the port from which a link leads to it.
pub fn tell_instance(alloc: Global, scope: &Scope<'_>, out: &mut TextBuf) -> Result<(), NoMemory>
    requires subcomponents { scope.now.references.now.subcomponents ≡ subcomponent_keys scope.now.tables.now }
    requires features { scope.now.references.now.features ≡ feature_keys scope.now.tables.now }
{
    let (tables, resolved) = (scope.tables, scope.resolved);
    let roots = roots(alloc, tables, resolved)?;
    let Some(&root) = roots.rows().first() else {
        return tell_line(out, b"no root");
    };
    let instance = Instance { tables, resolved };
    let frame = instance.frame_period(alloc, root)?;
    tell_number(out, b"frame", i128::from(frame))?;
    let wiring = Wiring::of(alloc, tables, scope.references, resolved, root)?;
    let teller = Teller {
        scope: *scope,
        wiring: &wiring,
    };
    let found = listed(alloc, tables, resolved, Sought::Domain, root, 60)?;
    for path in found.first.rows() {
        teller.tell_domain(alloc, &instance, path, out)?;
    }
    Ok(())
}

impl<'a, 'b> Teller<'a, 'b> {
    fn tell_domain(
        &self,
        alloc: Global,
        instance: &Instance<'a>,
        path: &Path,
        out: &mut TextBuf,
    ) -> Result<(), NoMemory> {
        out.word(b"domain ")?;
        out.word(instance.domain_name(alloc, path.rows())?.rows())?;
        match instance.thread_at(alloc, path.rows())? {
            Some(thread) => tell_timing(timing_of(alloc, &thread)?, out)?,
            None => out.newline()?,
        }
        let component = self.component(alloc, path)?;
        let Some(declared) = self.declared(component.rows().last().copied()) else {
            return Ok(());
        };
        let ports = rows_of(alloc, self.scope.tables.features.rows(), declared)?;
        for &port in ports.rows() {
            self.tell_port(alloc, &component, port, out)?;
        }
        Ok(())
    }

    /// The way to the component whose ports are those of a domain: the thread of a process.
    fn component(&self, alloc: Global, path: &Path) -> Result<Path, NoMemory> {
        let mut way = Rows::new(alloc);
        for &row in path.rows() {
            way.push(row)?;
        }
        if let Some(thread) = self.thread(path.rows().last().copied()) {
            way.push(thread)?;
        }
        Ok(way)
    }

    fn thread(&self, row: Option<usize>) -> Option<usize> {
        match at_row(self.scope.resolved.classes.rows(), row?)? {
            ClassRow::Implementation(number) if self.is_process(row?) => {
                thread_of(self.scope.tables.subcomponents.rows(), number)
            }
            _ => None,
        }
    }

    fn is_process(&self, row: usize) -> bool {
        match self.part(row) {
            Some(part) => part.category == Category::Process,
            None => false,
        }
    }

    fn part(&self, row: usize) -> Option<&'a Subcomponent> {
        match self.scope.tables.subcomponents.rows().get(row) {
            Some(found) => Some(found.part.get()),
            None => None,
        }
    }

    fn port(&self, row: usize) -> Option<&'a Feature> {
        match self.scope.tables.features.rows().get(row) {
            Some(found) => Some(found.part.get()),
            None => None,
        }
    }

    /// The type of a subcomponent.
    fn declared(&self, row: Option<usize>) -> Option<usize> {
        let class = at_row(self.scope.resolved.classes.rows(), row?)?;
        self.scope.resolved.type_row(class)
    }

    /// A line for an in port, with where the link to it begins.
    fn tell_port(
        &self,
        alloc: Global,
        component: &Path,
        row: usize,
        out: &mut TextBuf,
    ) -> Result<(), NoMemory> {
        let Some(port) = self.port(row) else {
            return Ok(());
        };
        if port.direction == Direction::Out {
            return Ok(());
        }
        out.word(b"  ")?;
        out.word(port.name.name.rows())?;
        let mut way = Rows::new(alloc);
        for &step in component.rows() {
            way.push(step)?;
        }
        if let Some(source) = self.wiring.source(way, &port.name.name)? {
            self.tell_source(&source, out)?;
        }
        out.newline()
    }

    fn tell_source(&self, source: &Source, out: &mut TextBuf) -> Result<(), NoMemory> {
        out.word(b" from ")?;
        for &row in source.path.rows() {
            if let Some(part) = self.part(row) {
                out.word(part.name.name.rows())?;
                out.word(b".")?;
            }
        }
        if let Some(port) = self.port(source.feature) {
            out.word(port.name.name.rows())?;
        }
        if let Some(connection) = self.scope.tables.connections.rows().get(source.across) {
            out.word(b" by ")?;
            out.word(connection.part.get().name.name.rows())?;
        }
        Ok(())
    }
}

fn tell_timing(timing: Timing, out: &mut TextBuf) -> Result<(), NoMemory> {
    match timing.dispatch {
        Some(Dispatch::Periodic) => out.word(b" periodic")?,
        Some(Dispatch::Sporadic) => out.word(b" sporadic")?,
        None => out.word(b" untimed")?,
    }
    if let Some(period) = timing.period {
        out.word(b" period ")?;
        out.number(i128::from(period))?;
    }
    tell_number(out, b" upper", i128::from(timing.upper))
}
