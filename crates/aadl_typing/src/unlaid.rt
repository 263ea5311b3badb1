//! Uses of data that have no layout.

ghost use Rattle.std.specs.Prelude.{◌≡◌, IfOk};
ghost use Rattle.aadl_typing.specs.Unlaid.{flawed, use_offence, kind_offence, port_offence, subcomponent_offence, IsFirstUse};

use crate::data_graph::class_data;
use crate::flaws::{flaw_at, flaws_of};
use crate::made_of::made_rows;
use crate::refusals::place_of;
use aadl_names::{Held, PartRow, Scope, Test, first_offence, named};
use aadl_tree::{Class, Feature, PortKind, Subcomponent};
use aadl_types::is_data;
use hw_text::{Code, NoMemory, Refusal};
use std::alloc::Global;

/// What is looked up at a use.
#[derive(Clone, Copy)]
struct Unlaid<'a> {
    scope: Scope<'a>,
    /// Which rows of the data have a flaw.
    flaws: &'a [bool],
}

impl<'a> Unlaid<'a> {
    fn at(&self, alloc: Global, class: &Class) -> Result<Option<Refusal>, NoMemory>
        ensures { IfOk result (λ offence. offence ≡ use_offence self.now.scope.references.now self.now.scope.tables.now self.now.flaws.now class.now) }
    {
        let row = class_data(alloc, &self.scope, class)?;
        if self.is_flawed(row) {
            let text = class.text(alloc)?;
            Ok(Some(named(Code::ModelBadProperty, place_of(class), text)))
        } else {
            Ok(None)
        }
    }

    fn is_flawed(&self, row: Option<usize>) -> bool
        ensures { result ≡ flawed self.now.flaws.now row }
    {
        match row {
            Some(row) => flaw_at(self.flaws, row),
            None => false,
        }
    }
}

/// The condition that the data of ports have layouts.
#[derive(Clone, Copy)]
struct OfPorts<'a> {
    unlaid: Unlaid<'a>,
}

impl<'a, 'b> Test<PartRow<'b, Feature>> for OfPorts<'a> {
    ghost offence_of = { λ test. port_offence test.unlaid.scope.references.now test.unlaid.scope.tables.now test.unlaid.flaws.now };

    fn offence(
        &self,
        alloc: Global,
        row: &PartRow<'b, Feature>,
    ) -> Result<Option<Refusal>, NoMemory> {
        match &row.part.get().kind {
            PortKind::Event => Ok(None),
            PortKind::Data(class) | PortKind::EventData(class) => {
                let offence = self.unlaid.at(alloc, class)?;
                Ok(offence)
            }
        }
    }
}

/// The condition that the data of subcomponents have layouts.
#[derive(Clone, Copy)]
struct OfSubcomponents<'a> {
    unlaid: Unlaid<'a>,
}

impl<'a, 'b> Test<PartRow<'b, Subcomponent>> for OfSubcomponents<'a> {
    ghost offence_of = { λ test. subcomponent_offence test.unlaid.scope.references.now test.unlaid.scope.tables.now test.unlaid.flaws.now };

    fn offence(
        &self,
        alloc: Global,
        row: &PartRow<'b, Subcomponent>,
    ) -> Result<Option<Refusal>, NoMemory> {
        let subcomponent = row.part.get();
        if is_data(subcomponent.category) {
            let offence = self.unlaid.at(alloc, &subcomponent.class)?;
            Ok(offence)
        } else {
            Ok(None)
        }
    }
}

/// The condition that the data of properties have layouts.
#[derive(Clone, Copy)]
struct OfProperties<'a> {
    unlaid: Unlaid<'a>,
}

impl<'a, 'b> Test<Held<'b, Class>> for OfProperties<'a> {
    ghost offence_of = { λ test. use_offence test.unlaid.scope.references.now test.unlaid.scope.tables.now test.unlaid.flaws.now };

    fn offence(&self, alloc: Global, row: &Held<'b, Class>) -> Result<Option<Refusal>, NoMemory> {
        let offence = self.unlaid.at(alloc, row.get())?;
        Ok(offence)
    }
}

/// The first use in the text of data that have no layout for another cause than that they contain
/// themselves, and the refusal known before, which comes first at one place. Data are used by ports,
/// by subcomponents, and by these classes of properties.
pub fn first_without_layout(
    alloc: Global,
    scope: &Scope<'_>,
    bases: &[Held<'_, Class>],
    known: Option<Refusal>,
) -> Result<Option<Refusal>, NoMemory>
    ensures { IfOk result (IsFirstUse scope.now.references.now scope.now.tables.now bases.now known) }
{
    let rows = made_rows(alloc, scope)?;
    let flaws = flaws_of(alloc, rows.rows())?;
    let unlaid = Unlaid {
        scope: *scope,
        flaws: flaws.as_slice(),
    };
    let ports = OfPorts { unlaid };
    let first = first_offence(alloc, &ports, scope.tables.features.rows(), known)?;
    let inner = OfSubcomponents { unlaid };
    let first = first_offence(alloc, &inner, scope.tables.subcomponents.rows(), first)?;
    let first = first_offence(alloc, &OfProperties { unlaid }, bases, first)?;
    Ok(first)
}
