//! What names and paths mean inside of types and implementations.

ghost use Rattle.std.specs.Prelude.{◌≡◌};
ghost use Rattle.aadl_names.specs.Meanings.{feature_row, subcomponent_row, connection_row, class_inside, end_inside, end_row, element_at, part_named, path_row};

use crate::class_row::ClassRow;
use crate::element::Element;
use crate::part::Part;
use crate::parts::PartRow;
use crate::references::References;
use crate::resolved::{Resolved, at_row};
use crate::tables::Tables;
use aadl_tree::{ConnectionEnd, Path};
use hw_text::Name;

/// What is looked up where a name is to mean something.
#[derive(Clone, Copy)]
pub struct Scope<'a> {
    pub tables: &'a Tables<'a>,
    pub references: &'a References<'a>,
    pub resolved: &'a Resolved,
}

impl<'a> Scope<'a> {
    /// The row of the feature of a name.
    pub fn feature(&self, within: ClassRow, name: &Name) -> Option<usize>
        ensures { result ≡ feature_row self.now.references.now self.now.resolved.now within name.now }
    {
        let owner = self.resolved.type_row(within)?;
        self.references.features.place(owner, name.rows(), &[])
    }

    /// The row of the subcomponent of a name.
    pub fn subcomponent(&self, within: ClassRow, name: &Name) -> Option<usize>
        ensures { result ≡ subcomponent_row self.now.references.now within name.now }
    {
        match within {
            ClassRow::Base | ClassRow::Type(_) => None,
            ClassRow::Implementation(owner) => {
                self.references.subcomponents.place(owner, name.rows(), &[])
            }
        }
    }

    /// The row of the connection of a name.
    pub fn connection(&self, within: ClassRow, name: &Name) -> Option<usize>
        ensures { result ≡ connection_row self.now.references.now within name.now }
    {
        match within {
            ClassRow::Base | ClassRow::Type(_) => None,
            ClassRow::Implementation(owner) => {
                self.references.connections.place(owner, name.rows(), &[])
            }
        }
    }

    /// The class of the subcomponent of a name.
    pub fn class_inside(&self, within: ClassRow, name: &Name) -> Option<ClassRow>
        ensures { result ≡ class_inside self.now.references.now self.now.resolved.now within name.now }
    {
        let row = self.subcomponent(within, name)?;
        at_row(self.resolved.classes.rows(), row)
    }

    /// The row of the port that an end of a connection of this implementation means.
    pub fn end(&self, implementation: usize, end: &ConnectionEnd) -> Option<usize>
        ensures { result ≡ end_row self.now.references.now self.now.resolved.now implementation end.now }
    {
        let within = ClassRow::Implementation(implementation);
        match &end.port {
            None => self.feature(within, &end.first.name),
            Some(port) => {
                let class = self.class_inside(within, &end.first.name)?;
                self.feature(class, port)
            }
        }
    }

    /// What a name means: a subcomponent, else a feature, else a connection.
    fn part(&self, within: ClassRow, name: &Name) -> Option<Element>
        ensures { result ≡ part_named self.now.references.now self.now.resolved.now self.now.tables.now within name.now }
    {
        let subcomponent = self.subcomponent(within, name);
        if let Some(found) = element_at(self.tables.subcomponents.rows(), subcomponent) {
            return Some(found);
        }
        let feature = self.feature(within, name);
        if let Some(found) = element_at(self.tables.features.rows(), feature) {
            return Some(found);
        }
        element_at(
            self.tables.connections.rows(),
            self.connection(within, name),
        )
    }

    /// What a path means that counts from a type or an implementation.
    pub fn path(&self, from: ClassRow, path: &Path) -> Option<Element>
        ensures { result ≡ path_row self.now.references.now self.now.resolved.now self.now.tables.now from path.now }
    {
        let mut within = from;
        let mut last = &path.first.name;
        for next in path.others.rows() {
            within = self.class_inside(within, last)?;
            last = next;
        }
        self.part(within, last)
    }
}

/// The part at a row, where there is one.
fn element_at<T: Part>(rows: &[PartRow<'_, T>], place: Option<usize>) -> Option<Element>
    ensures { result ≡ element_at T.element_of rows.now place }
{
    match rows.get(place?) {
        Some(row) => Some(T::element(row.owner, row.number)),
        None => None,
    }
}
