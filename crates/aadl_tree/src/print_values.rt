//! Printing values and property associations.

ghost use Rattle.std.specs.Prelude.{◌≡◌, OnOk, [], ◌∷◌};
ghost use Rattle.std.specs.List.{flat_map};
ghost use Rattle.aadl_tree.specs.Canonical.{behind_comma, path_tokens};
ghost use Rattle.aadl_tree.specs.Layout.{written};
ghost use Rattle.aadl_tree.specs.Values.{sign_tokens, number_token, unit_tokens, quantity_tokens, range_tokens, classifier_tokens, reference_tokens, truth_token, separated, value_tokens, field_tokens, constant_tokens, applies_tokens, association_tokens};

use crate::association::Association;
use crate::class::Class;
use crate::mark::Mark;
use crate::names::Path;
use crate::page::Page;
use crate::value::{Number, PropertyValue, Quantity, RecordField, Sign};
use crate::word::Word;
use hw_text::{Name, NoMemory};

#[tactic(auto, using(crate::proofs::Writing::written_append), unfolding(crate::specs::Values::association_tokens))]
impl Association {
    pub fn print(&self, page: &mut Page) -> Result<(), NoMemory>
        ensures { OnOk result (page.new ≡ written page.old (association_tokens self.now)) }
    {
        self.property.print(page)?;
        page.mark(self.operator.mark())?;
        print_constant(page, self.constant)?;
        self.first.print(page)?;
        print_other_values(page, self.others.rows())?;
        print_applies_to(page, self.applies_to.rows())?;
        page.mark(Mark::Semicolon)
    }
}

fn print_constant(page: &mut Page, constant: bool) -> Result<(), NoMemory>
    ensures { OnOk result (page.new ≡ written page.old (constant_tokens constant)) }
{
    if constant {
        page.word(Word::Constant)
    } else {
        Ok(())
    }
}

#[tactic(auto, using(crate::proofs::Writing::written_append))]
fn print_applies_to(page: &mut Page, paths: &[Path]) -> Result<(), NoMemory>
    ensures { OnOk result (page.new ≡ written page.old (applies_tokens paths.now)) }
{
    let Some((first, others)) = paths.split_first() else {
        return Ok(());
    };
    page.word(Word::Applies)?;
    page.word(Word::To)?;
    first.print(page)?;
    print_other_paths(page, others)
}

/// Prints each path behind a comma.
#[tactic(auto, using(crate::proofs::Writing::written_append))]
fn print_other_paths(page: &mut Page, paths: &[Path]) -> Result<(), NoMemory>
    ensures { OnOk result (page.new ≡ written page.old (flat_map (behind_comma path_tokens) paths.now)) }
{
    for path in paths {
        page.mark(Mark::Comma)?;
        path.print(page)?;
    }
    Ok(())
}

#[tactic(auto, using(crate::proofs::Writing::written_append))]
impl PropertyValue {
    #[cycle(printer)]
    pub fn print(&self, page: &mut Page) -> Result<(), NoMemory>
        ensures { OnOk result (page.new ≡ written page.old (value_tokens self.now)) }
    {
        match self {
            PropertyValue::Quantity(quantity) => quantity.print(page),
            PropertyValue::Range(from, to) => print_range(page, from, to),
            PropertyValue::Text(text) => page.quoted(text),
            PropertyValue::Truth(truth) => print_truth(page, *truth),
            PropertyValue::Name(name) => name.print(page),
            PropertyValue::List(values) => {
                page.mark(Mark::OpenParenthesis)?;
                print_separated(page, values.rows())?;
                page.mark(Mark::CloseParenthesis)
            }
            PropertyValue::Record(fields) => {
                page.mark(Mark::OpenBracket)?;
                print_fields(page, fields.rows())?;
                page.mark(Mark::CloseBracket)
            }
            PropertyValue::Classifier(class) => print_classifier(page, class),
            PropertyValue::Reference(path) => print_reference(page, path),
        }
    }
}

#[tactic(auto, using(crate::proofs::Writing::written_append))]
impl RecordField {
    #[cycle(printer)]
    fn print(&self, page: &mut Page) -> Result<(), NoMemory>
        ensures { OnOk result (page.new ≡ written page.old (field_tokens self.now)) }
    {
        page.name(&self.name)?;
        page.mark(Mark::Association)?;
        self.value.print(page)?;
        page.mark(Mark::Semicolon)
    }
}

/// Prints the values with commas between them.
#[cycle(printer)]
#[tactic(auto, using(crate::proofs::Writing::written_append))]
fn print_separated(page: &mut Page, values: &[PropertyValue]) -> Result<(), NoMemory>
    ensures { OnOk result (page.new ≡ written page.old (separated value_tokens values.now)) }
{
    let Some((first, others)) = values.split_first() else {
        return Ok(());
    };
    first.print(page)?;
    for value in others {
        page.mark(Mark::Comma)?;
        value.print(page)?;
    }
    Ok(())
}

/// Prints each value behind a comma.
#[tactic(auto, using(crate::proofs::Writing::written_append))]
fn print_other_values(page: &mut Page, values: &[PropertyValue]) -> Result<(), NoMemory>
    ensures { OnOk result (page.new ≡ written page.old (flat_map (behind_comma value_tokens) values.now)) }
{
    for value in values {
        page.mark(Mark::Comma)?;
        value.print(page)?;
    }
    Ok(())
}

#[cycle(printer)]
#[tactic(auto, using(crate::proofs::Writing::written_append))]
fn print_fields(page: &mut Page, fields: &[RecordField]) -> Result<(), NoMemory>
    ensures { OnOk result (page.new ≡ written page.old (flat_map field_tokens fields.now)) }
{
    for field in fields {
        field.print(page)?;
    }
    Ok(())
}

#[tactic(auto, using(crate::proofs::Writing::written_append))]
impl Quantity {
    fn print(&self, page: &mut Page) -> Result<(), NoMemory>
        ensures { OnOk result (page.new ≡ written page.old (quantity_tokens self.now)) }
    {
        print_sign(page, self.sign)?;
        self.number.print(page)?;
        print_unit(page, &self.unit)
    }
}

impl Number {
    fn print(&self, page: &mut Page) -> Result<(), NoMemory>
        ensures { OnOk result (page.new ≡ written page.old (number_token self.now ∷ [])) }
    {
        match self {
            Number::Integer(integer) => page.integer(integer),
            Number::Real(real) => page.real(real),
        }
    }
}

fn print_sign(page: &mut Page, sign: Option<Sign>) -> Result<(), NoMemory>
    ensures { OnOk result (page.new ≡ written page.old (sign_tokens sign)) }
{
    match sign {
        Some(Sign::Plus) => page.mark(Mark::Plus),
        Some(Sign::Minus) => page.mark(Mark::Minus),
        None => Ok(()),
    }
}

fn print_unit(page: &mut Page, unit: &Option<Name>) -> Result<(), NoMemory>
    ensures { OnOk result (page.new ≡ written page.old (unit_tokens unit.now)) }
{
    match unit {
        Some(name) => page.name(name),
        None => Ok(()),
    }
}

#[tactic(auto, using(crate::proofs::Writing::written_append))]
fn print_range(page: &mut Page, from: &Quantity, to: &Quantity) -> Result<(), NoMemory>
    ensures { OnOk result (page.new ≡ written page.old (range_tokens from.now to.now)) }
{
    from.print(page)?;
    page.mark(Mark::Range)?;
    to.print(page)
}

fn print_truth(page: &mut Page, truth: bool) -> Result<(), NoMemory>
    ensures { OnOk result (page.new ≡ written page.old (truth_token truth ∷ [])) }
{
    if truth {
        page.word(Word::True)
    } else {
        page.word(Word::False)
    }
}

#[tactic(auto, using(crate::proofs::Writing::written_append))]
fn print_classifier(page: &mut Page, class: &Class) -> Result<(), NoMemory>
    ensures { OnOk result (page.new ≡ written page.old (classifier_tokens class.now)) }
{
    page.word(Word::Classifier)?;
    page.mark(Mark::OpenParenthesis)?;
    class.print(page)?;
    page.mark(Mark::CloseParenthesis)
}

#[tactic(auto, using(crate::proofs::Writing::written_append))]
fn print_reference(page: &mut Page, path: &Path) -> Result<(), NoMemory>
    ensures { OnOk result (page.new ≡ written page.old (reference_tokens path.now)) }
{
    page.word(Word::Reference)?;
    page.mark(Mark::OpenParenthesis)?;
    path.print(page)?;
    page.mark(Mark::CloseParenthesis)
}
