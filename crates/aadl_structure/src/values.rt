//! What the values of properties refer to.

ghost use Rattle.std.specs.Prelude.{◌≡◌, ◌++◌, flat_map, OnOk};
ghost use Rattle.aadl_structure.specs.Mentions.{value_mentions, field_mentions};

use crate::mention::Mention;
use aadl_names::{ClassRow, Held};
use aadl_tree::{Category, PropertyValue, RecordField};
use hw_text::{NoMemory, Rows};

/// Appends the references of a value, in text order.
#[cycle(walk)]
pub fn push_value<'a>(
    mentions: &mut Rows<Mention<'a>>,
    around: ClassRow,
    asked: Option<Category>,
    value: &'a PropertyValue,
) -> Result<(), NoMemory>
    ensures { OnOk result (mentions.new ≡ mentions.old ++ value_mentions around asked value.now) }
{
    match value {
        PropertyValue::List(values) => push_values(mentions, around, asked, values.rows()),
        PropertyValue::Record(fields) => push_fields(mentions, around, asked, fields.rows()),
        PropertyValue::Classifier(class) => mentions.push(Mention::Class(asked, Held::new(class))),
        PropertyValue::Reference(path) => {
            mentions.push(Mention::Path(Some(around), Held::new(path)))
        }
        _ => Ok(()),
    }
}

/// Appends the references of these values.
#[cycle(walk)]
pub fn push_values<'a>(
    mentions: &mut Rows<Mention<'a>>,
    around: ClassRow,
    asked: Option<Category>,
    values: &'a [PropertyValue],
) -> Result<(), NoMemory>
    ensures { OnOk result (mentions.new ≡ mentions.old ++ flat_map (value_mentions around asked) values.now) }
{
    for value in values {
        push_value(mentions, around, asked, value)?;
    }
    Ok(())
}

#[cycle(walk)]
fn push_fields<'a>(
    mentions: &mut Rows<Mention<'a>>,
    around: ClassRow,
    asked: Option<Category>,
    fields: &'a [RecordField],
) -> Result<(), NoMemory>
    ensures { OnOk result (mentions.new ≡ mentions.old ++ flat_map (field_mentions around asked) fields.now) }
{
    for field in fields {
        push_value(mentions, around, asked, &field.value)?;
    }
    Ok(())
}
