//! The names of a package, and what a classifier refers to.

ghost use Rattle.std.specs.Prelude.{◌≡◌, IfOk, Option};
ghost use Rattle.aadl_names.specs.Meanings.{references_of, class_row, row_named, is_own_prefix, category_of, is_of, means, type_of};

use crate::class_row::ClassRow;
use crate::index::Index;
use crate::tables::Tables;
use aadl_tree::{Category, Class, Implementation, Package};
use hw_text::{Name, NoMemory, TextBuf};
use std::alloc::Global;

/// The name of a package, and those of all that it declares.
#[derive(Drop)]
pub struct References<'a> {
    pub package_name: TextBuf,
    pub types: Index<'a>,
    pub implementations: Index<'a>,
    pub features: Index<'a>,
    pub subcomponents: Index<'a>,
    pub connections: Index<'a>,
}

impl<'a> References<'a> {
    pub fn of(alloc: Global, model: &Package, tables: &'a Tables<'a>) -> Result<Self, NoMemory>
        ensures { IfOk result (λ references. references ≡ references_of model.now tables.now) }
    {
        Ok(References {
            package_name: model.name.text(alloc)?,
            types: Index::of(alloc, tables.types.rows())?,
            implementations: Index::of(alloc, tables.implementations.rows())?,
            features: Index::of(alloc, tables.features.rows())?,
            subcomponents: Index::of(alloc, tables.subcomponents.rows())?,
            connections: Index::of(alloc, tables.connections.rows())?,
        })
    }

    /// What a classifier refers to, of whatever category.
    pub fn class(&self, alloc: Global, class: &Class) -> Result<Option<ClassRow>, NoMemory>
        ensures { IfOk result (λ row. row ≡ class_row self.now class.now) }
    {
        match class {
            Class::Base(_, _) => Ok(Some(ClassRow::Base)),
            Class::Model(own) => {
                if self.is_own_prefix(own.prefix(alloc)?.rows()) {
                    Ok(self.named(own.type_name(), &own.implementation))
                } else {
                    Ok(None)
                }
            }
        }
    }

    fn is_own_prefix(&self, prefix: &[u8]) -> bool
        ensures { result ≡ is_own_prefix self.now.package_name prefix.now }
    {
        prefix.is_empty() || prefix == self.package_name.rows()
    }

    /// The first type of a name, or the first implementation of both names.
    fn named(&self, name: &Name, implementation: &Option<Name>) -> Option<ClassRow>
        ensures { result ≡ row_named self.now name.now implementation.now }
    {
        match implementation {
            None => self.types.place(0, name.rows(), &[]).map(ClassRow::Type),
            Some(own) => self
                .implementations
                .place(0, name.rows(), own.rows())
                .map(ClassRow::Implementation),
        }
    }

    /// What a classifier means where one of this category is asked for.
    pub fn means(
        &self,
        alloc: Global,
        tables: &Tables<'_>,
        asked: Category,
        class: &Class,
    ) -> Result<Option<ClassRow>, NoMemory>
        ensures { IfOk result (λ row. row ≡ means self.now tables.now asked class.now) }
    {
        let Some(found) = self.class(alloc, class)? else {
            return Ok(None);
        };
        if is_of(asked, category_of(tables, found)) {
            Ok(Some(found))
        } else {
            Ok(None)
        }
    }

    /// The type of an implementation, which is of its category.
    pub fn type_of(&self, tables: &Tables<'_>, implementation: &Implementation) -> Option<usize>
        ensures { result ≡ type_of self.now tables.now implementation.now }
    {
        let name = implementation.name.component_type.name.rows();
        let found = self.types.place(0, name, &[])?;
        if is_of(
            implementation.category,
            category_of(tables, ClassRow::Type(found)),
        ) {
            Some(found)
        } else {
            None
        }
    }
}

/// The category of what a classifier refers to.
pub fn category_of(tables: &Tables<'_>, row: ClassRow) -> Option<Category>
    ensures { result ≡ category_of tables.now row }
{
    match row {
        ClassRow::Base => Some(Category::Data),
        ClassRow::Type(number) => match tables.types.rows().get(number) {
            Some(found) => Some(found.get().category),
            None => None,
        },
        ClassRow::Implementation(number) => match tables.implementations.rows().get(number) {
            Some(found) => Some(found.get().category),
            None => None,
        },
    }
}

fn is_of(asked: Category, found: Option<Category>) -> bool
    ensures { result ≡ is_of asked found }
{
    match found {
        Some(found) => asked == found,
        None => false,
    }
}
