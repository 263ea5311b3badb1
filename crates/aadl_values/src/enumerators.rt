//! The names of an enum's values.

ghost use Rattle.std.specs.Prelude.{◌≡◌, [], IfOk};
ghost use Rattle.aadl_values.specs.Columns.{lower_name, name_in, names_from, enumerators_of};

use crate::distinct::are_distinct;
use crate::layer::{list_in, text_in};
use aadl_tree::PropertyValue;
use hw_text::{Name, NameFault, NoMemory, WordList};
use std::alloc::Global;

/// The names in a list of texts, of which there is at least one, and which differ; in lower case.
pub fn enumerators_of(alloc: Global, value: &PropertyValue) -> Result<Option<WordList>, NoMemory>
    ensures { IfOk result (λ names. names ≡ enumerators_of value.now) }
{
    let Some(values) = list_in(value) else {
        return Ok(None);
    };
    let Some(names) = names_in(alloc, values)? else {
        return Ok(None);
    };
    if !names.rows().is_empty() && are_distinct(alloc, names.rows())? {
        Ok(Some(names))
    } else {
        Ok(None)
    }
}

/// The names that all of these are.
fn names_in(alloc: Global, values: &[PropertyValue]) -> Result<Option<WordList>, NoMemory>
    ensures { IfOk result (λ names. names ≡ names_from [] values.now) }
{
    let mut names = WordList::new(alloc);
    for value in values {
        let Some(name) = name_in(alloc, value)? else {
            return Ok(None);
        };
        names.push(name.rows())?;
    }
    Ok(Some(names))
}

/// The name that a text is, in lower case.
fn name_in(alloc: Global, value: &PropertyValue) -> Result<Option<Name>, NoMemory>
    ensures { IfOk result (λ name. name ≡ name_in value.now) }
{
    match text_in(value) {
        Some(text) => lower_name(alloc, text),
        None => Ok(None),
    }
}

fn lower_name(alloc: Global, text: &[u8]) -> Result<Option<Name>, NoMemory>
    ensures { IfOk result (λ name. name ≡ lower_name text.now) }
{
    match Name::read(alloc, text) {
        Ok(name) => Ok(Some(name)),
        Err(NameFault::BadName) => Ok(None),
        Err(NameFault::NoMemory) => Err(NoMemory),
    }
}
