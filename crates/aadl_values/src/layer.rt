//! What a value is at its outermost level.

ghost use Rattle.std.specs.Prelude.{◌≡◌, option_copied, option_map};
ghost use Rattle.aadl_values.specs.Layers.{text_in, word_in, list_in, bracketed};
ghost use Rattle.aadl_values.specs.Columns.{reference_of, classifier_of};

use aadl_tree::{Class, Path, PropertyValue};
use hw_text::Name;

/// A text between quotes.
pub fn text_in(value: &PropertyValue) -> Option<&[u8]>
    ensures { option_map (λ text. text.now) result ≡ text_in value.now }
{
    match value {
        PropertyValue::Text(text) => Some(text.rows()),
        _ => None,
    }
}

/// One name, without a set name before it.
pub fn word_in(value: &PropertyValue) -> Option<&Name>
    ensures { option_copied result ≡ word_in value.now }
{
    match value {
        PropertyValue::Name(name) => {
            if name.others.rows().is_empty() {
                Some(&name.first.name)
            } else {
                None
            }
        }
        _ => None,
    }
}

/// The values in one pair of brackets.
pub fn list_in(value: &PropertyValue) -> Option<&[PropertyValue]>
    ensures { option_map (λ values. values.now) result ≡ list_in value.now }
{
    match value {
        PropertyValue::List(values) => Some(values.rows()),
        _ => None,
    }
}

/// The value that alone stands in one pair of brackets.
pub fn bracketed(value: &PropertyValue) -> Option<&PropertyValue>
    ensures { option_copied result ≡ bracketed value.now }
{
    let (first, others) = list_in(value)?.split_first()?;
    if others.is_empty() { Some(first) } else { None }
}

/// The path of the one `reference` in brackets.
pub fn reference_of(value: &PropertyValue) -> Option<&Path>
    ensures { option_copied result ≡ reference_of value.now }
{
    match bracketed(value)? {
        PropertyValue::Reference(path) => Some(path),
        _ => None,
    }
}

/// The class of the one `classifier` in brackets.
pub fn classifier_of(value: &PropertyValue) -> Option<&Class>
    ensures { option_copied result ≡ classifier_of value.now }
{
    match bracketed(value)? {
        PropertyValue::Classifier(class) => Some(class),
        _ => None,
    }
}
