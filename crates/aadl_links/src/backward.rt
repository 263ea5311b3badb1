//! From a port back to the port from which a link leads to it.

ghost use Rattle.std.specs.Prelude.{◌≡◌, ℕ, Some, IfOk, IfSome};
ghost use Rattle.aadl_links.specs.Wires.{port_at};
ghost use Rattle.aadl_links.specs.Links.{HasOneSource, IsSourceOf, IsOnlySource};
ghost use Rattle.aadl_links.specs.Steps.{Enters, Leaves, RisesFrom, IsOnlyRise};

use crate::source::Source;
use crate::wiring::Wiring;
use hw_text::{Name, NoMemory, Rows};
use std::alloc::Global;

/// How many subcomponents are on a way at most: systems, a process and its thread.
const DEEPEST: usize = 34;

impl<'a> Wiring<'a> {
    /// Where the link to a port begins. The path leads to the component of the port, from outside.
    pub fn source(&self, path: Rows<usize>, port: &Name) -> Result<Option<Source>, NoMemory>
        ensures found { IfOk result (λ source. IfSome source (IsSourceOf self.now (port_at path port.now))) }
        ensures only { IfOk result (λ source. HasOneSource self.now → IsOnlySource self.now (port_at path port.now) source) }
    {
        let mut outer = path;
        let Some(last) = outer.pop() else {
            return Ok(None);
        };
        let Some(within) = self.within(outer.rows()) else {
            return Ok(None);
        };
        let Some(number) = self.entering(within, last, port) else {
            return Ok(None);
        };
        let Some(connection) = self.connection(number) else {
            return Ok(None);
        };
        let end = &connection.part.get().from;
        match &end.port {
            None => self.source(outer, &end.first.name),
            Some(name) => match self.subcomponent(within, &end.first.name) {
                Some(next) => {
                    outer.push(next)?;
                    self.climbed(outer, name, number)
                }
                None => Ok(None),
            },
        }
    }

    /// The connection of an implementation that ends at a port of its subcomponent.
    fn entering(&self, within: usize, subcomponent: usize, port: &Name) -> Option<usize>
        ensures found { IfSome result (Enters self.now within subcomponent port.now) }
        ensures only { HasOneSource self.now → (c : ℕ) → Enters self.now within subcomponent port.now c → result ≡ Some c }
    {
        let name = self.name(subcomponent)?;
        let found = self.ending(within, name.rows(), port.rows())?;
        let end = &self.connection(found)?.part.get().to;
        if end.port.is_none() {
            return None;
        }
        if self.subcomponent(within, name)? == subcomponent {
            Some(found)
        } else {
            None
        }
    }

    /// The connection of an implementation that ends at a port of the component itself.
    fn leaving(&self, within: usize, port: &Name) -> Option<usize>
        ensures found { IfSome result (Leaves self.now within port.now) }
        ensures only { HasOneSource self.now → (c : ℕ) → Leaves self.now within port.now c → result ≡ Some c }
    {
        let found = self.ending(within, port.rows(), &[])?;
        let end = &self.connection(found)?.part.get().to;
        if end.port.is_none() {
            Some(found)
        } else {
            None
        }
    }

    /// Where the connections begin that lead up to a port.
    fn climbed(
        &self,
        path: Rows<usize>,
        port: &Name,
        across: usize,
    ) -> Result<Option<Source>, NoMemory>
        ensures found { IfOk result (λ source. IfSome source (RisesFrom self.now (port_at path port.now) across)) }
        ensures only { IfOk result (λ source. HasOneSource self.now → IsOnlyRise self.now (port_at path port.now) across source) }
    {
        let mut outer = path;
        if outer.len() > DEEPEST {
            return Ok(None);
        }
        if let Some(feature) = self.sender(outer.rows(), port) {
            return Ok(Some(Source {
                path: outer,
                feature,
                across,
            }));
        }
        let Some(within) = self.within(outer.rows()) else {
            return Ok(None);
        };
        let Some(number) = self.leaving(within, port) else {
            return Ok(None);
        };
        let Some(connection) = self.connection(number) else {
            return Ok(None);
        };
        let end = &connection.part.get().from;
        let Some(name) = &end.port else {
            return Ok(None);
        };
        let Some(next) = self.subcomponent(within, &end.first.name) else {
            return Ok(None);
        };
        outer.push(next)?;
        self.climbed(outer, name, across)
    }
}
