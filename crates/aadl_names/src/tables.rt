//! What a model declares, as tables.

ghost use Rattle.std.specs.Prelude.{◌≡◌, ◌++◌, length, map, Some, OnOk};
ghost use Rattle.aadl_names.specs.TableRows.{annex_row, tables_in, joined, no_tables};

use crate::associations::{AssociationRow, push_associations, push_braces};
use crate::element::Element;
use crate::held::Held;
use crate::parts::{PartRow, push_parts};
use aadl_tree::{
    Annex, ComponentType, Connection, Declaration, Feature, Implementation, Subcomponent,
};
use hw_text::{NoMemory, Rows};
use std::alloc::Global;

/// An annex, and the type or implementation that it stands in; the package itself has none.
#[derive(Drop)]
pub struct AnnexRow<'a> {
    pub holder: Option<Element>,
    pub annex: Held<'a, Annex>,
}

/// What a package declares, and the parts of its declarations, each table in text order.
#[derive(Drop)]
pub struct Tables<'a> {
    pub types: Rows<Held<'a, ComponentType>>,
    pub implementations: Rows<Held<'a, Implementation>>,
    pub features: Rows<PartRow<'a, Feature>>,
    pub subcomponents: Rows<PartRow<'a, Subcomponent>>,
    pub connections: Rows<PartRow<'a, Connection>>,
    pub associations: Rows<AssociationRow<'a>>,
    pub annexes: Rows<AnnexRow<'a>>,
}

impl<'a> Tables<'a> {
    pub fn new(alloc: Global) -> Self
        ensures { result ≡ no_tables }
    {
        Tables {
            types: Rows::new(alloc),
            implementations: Rows::new(alloc),
            features: Rows::new(alloc),
            subcomponents: Rows::new(alloc),
            connections: Rows::new(alloc),
            associations: Rows::new(alloc),
            annexes: Rows::new(alloc),
        }
    }

    /// Appends the rows of a further declaration.
    pub fn declare(&mut self, declaration: &'a Declaration) -> Result<(), NoMemory>
        ensures { OnOk result (self.new ≡ joined self.old (tables_in (length self.old.types) (length self.old.implementations) declaration.now)) }
    {
        match declaration {
            Declaration::Type(declared) => self.declare_type(declared),
            Declaration::Implementation(declared) => self.declare_implementation(declared),
            Declaration::Annex(annex) => {
                self.annexes.push(AnnexRow {
                    holder: None,
                    annex: Held::new(annex),
                })
            }
        }
    }

    fn declare_type(&mut self, declared: &'a ComponentType) -> Result<(), NoMemory>
        ensures { OnOk result (self.new ≡ joined self.old (tables_in (length self.old.types) (length self.old.implementations) (Declaration.Type declared.now))) }
    {
        let owner = self.types.len();
        let features = declared.features.rows();
        let holder = Element::Type(owner);
        push_parts(&mut self.features, owner, declared.category, features)?;
        push_braces(&mut self.associations, owner, features)?;
        push_associations(&mut self.associations, holder, declared.properties.rows())?;
        push_annexes(&mut self.annexes, holder, declared.annexes.rows())?;
        self.types.push(Held::new(declared))
    }

    fn declare_implementation(&mut self, declared: &'a Implementation) -> Result<(), NoMemory>
        ensures { OnOk result (self.new ≡ joined self.old (tables_in (length self.old.types) (length self.old.implementations) (Declaration.Implementation declared.now))) }
    {
        let owner = self.implementations.len();
        let category = declared.category;
        let subcomponents = declared.subcomponents.rows();
        let connections = declared.connections.rows();
        let holder = Element::Implementation(owner);
        push_parts(&mut self.subcomponents, owner, category, subcomponents)?;
        push_parts(&mut self.connections, owner, category, connections)?;
        push_braces(&mut self.associations, owner, subcomponents)?;
        push_braces(&mut self.associations, owner, connections)?;
        push_associations(&mut self.associations, holder, declared.properties.rows())?;
        push_annexes(&mut self.annexes, holder, declared.annexes.rows())?;
        self.implementations.push(Held::new(declared))
    }
}

/// Appends the annexes of one declaration.
fn push_annexes<'a>(
    rows: &mut Rows<AnnexRow<'a>>,
    holder: Element,
    annexes: &'a [Annex],
) -> Result<(), NoMemory>
    ensures { OnOk result (rows.new ≡ rows.old ++ map (annex_row (Some holder)) annexes.now) }
{
    for annex in annexes {
        rows.push(AnnexRow {
            holder: Some(holder),
            annex: Held::new(annex),
        })?;
    }
    Ok(())
}
