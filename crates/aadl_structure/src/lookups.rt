//! Which references of a table lead to something.

ghost use Rattle.std.specs.Prelude.{◌≡◌, IfOk};
ghost use Rattle.aadl_structure.specs.declared.lookups.Payloads.{Payloads as PayloadsValue};
ghost use Rattle.aadl_structure.specs.declared.lookups.Classes.{Classes as ClassesValue};
ghost use Rattle.aadl_structure.specs.declared.lookups.Types.{Types as TypesValue};
ghost use Rattle.aadl_structure.specs.declared.lookups.Sources.{Sources as SourcesValue};
ghost use Rattle.aadl_structure.specs.declared.lookups.Destinations.{Destinations as DestinationsValue};
ghost use Rattle.aadl_structure.specs.declared.lookups.Mentioned.{Mentioned as MentionedValue};
ghost use Rattle.aadl_structure.specs.Unknown.{kind_offence, port_offence, subcomponent_offence, type_offence, source_offence, destination_offence, mention_offence};

use crate::mention::Mention;
use crate::missing::{missing_class, missing_end, missing_path};
use crate::telling::refused;
use aadl_names::{Held, PartRow, Scope, Test};
use aadl_tree::{Category, Connection, Feature, Implementation, PortKind, Subcomponent};
use hw_text::{Code, NoMemory, Refusal};
use std::alloc::Global;

/// What ports carry.
#[derive(Clone, Copy)]
pub struct Payloads<'a> {
    pub scope: Scope<'a>,
}

/// The classes of subcomponents.
#[derive(Clone, Copy)]
pub struct Classes<'a> {
    pub scope: Scope<'a>,
}

/// The types of implementations.
#[derive(Clone, Copy)]
pub struct Types<'a> {
    pub scope: Scope<'a>,
}

/// Where connections come from.
#[derive(Clone, Copy)]
pub struct Sources<'a> {
    pub scope: Scope<'a>,
}

/// Where connections lead.
#[derive(Clone, Copy)]
pub struct Destinations<'a> {
    pub scope: Scope<'a>,
}

/// What property associations refer to.
#[derive(Clone, Copy)]
pub struct Mentioned<'a> {
    pub scope: Scope<'a>,
}

impl<'a, 'b> Test<PartRow<'b, Feature>> for Payloads<'a> {
    ghost offence_of = { λ (test : PayloadsValue). port_offence test.scope.references.now test.scope.tables.now };

    fn offence(
        &self,
        alloc: Global,
        row: &PartRow<'b, Feature>,
    ) -> Result<Option<Refusal>, NoMemory> {
        match &row.part.get().kind {
            PortKind::Event => Ok(None),
            PortKind::Data(class) | PortKind::EventData(class) => {
                missing_class(alloc, &self.scope, Some(Category::Data), class)
            }
        }
    }
}

impl<'a, 'b> Test<PartRow<'b, Subcomponent>> for Classes<'a> {
    ghost offence_of = { λ (test : ClassesValue). subcomponent_offence test.scope.references.now test.scope.tables.now };

    fn offence(
        &self,
        alloc: Global,
        row: &PartRow<'b, Subcomponent>,
    ) -> Result<Option<Refusal>, NoMemory> {
        let part = row.part.get();
        missing_class(alloc, &self.scope, Some(part.category), &part.class)
    }
}

impl<'a, 'b> Test<Held<'b, Implementation>> for Types<'a> {
    ghost offence_of = { λ (test : TypesValue). type_offence test.scope.references.now test.scope.tables.now };

    fn offence(
        &self,
        alloc: Global,
        row: &Held<'b, Implementation>,
    ) -> Result<Option<Refusal>, NoMemory> {
        let implementation = row.get();
        let references = self.scope.references;
        if references
            .type_of(self.scope.tables, implementation)
            .is_some()
        {
            return Ok(None);
        }
        let name = &implementation.name.component_type;
        refused(alloc, Code::ModelUnknown, name.place, name.name.rows())
    }
}

impl<'a, 'b> Test<PartRow<'b, Connection>> for Sources<'a> {
    ghost offence_of = { λ (test : SourcesValue). source_offence test.scope.references.now test.scope.resolved.now };

    fn offence(
        &self,
        alloc: Global,
        row: &PartRow<'b, Connection>,
    ) -> Result<Option<Refusal>, NoMemory> {
        missing_end(alloc, &self.scope, row.owner, &row.part.get().from)
    }
}

impl<'a, 'b> Test<PartRow<'b, Connection>> for Destinations<'a> {
    ghost offence_of = { λ (test : DestinationsValue). destination_offence test.scope.references.now test.scope.resolved.now };

    fn offence(
        &self,
        alloc: Global,
        row: &PartRow<'b, Connection>,
    ) -> Result<Option<Refusal>, NoMemory> {
        missing_end(alloc, &self.scope, row.owner, &row.part.get().to)
    }
}

impl<'a, 'b> Test<Mention<'b>> for Mentioned<'a> {
    ghost offence_of = { λ (test : MentionedValue). mention_offence test.scope.references.now test.scope.resolved.now test.scope.tables.now };

    fn offence(&self, alloc: Global, row: &Mention<'b>) -> Result<Option<Refusal>, NoMemory> {
        match row {
            Mention::Path(from, path) => missing_path(alloc, &self.scope, *from, path.get()),
            Mention::Class(asked, class) => missing_class(alloc, &self.scope, *asked, class.get()),
        }
    }
}
