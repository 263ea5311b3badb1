//! Reading property values.

ghost use Rattle.std.specs.Prelude.{◌≡◌, [], ◌∷◌, ◌++◌, codes, true};
ghost use Rattle.aadl_parse.specs.Terminals.{name_shapes};
ghost use Rattle.hw_text.specs.Language.{Each, Made};
ghost use Rattle.hw_text.specs.Reading.{Reads, begins};
ghost use Rattle.aadl_parse.specs.Shapes.{one_of, Without};
ghost use Rattle.aadl_parse.specs.SimpleValue.{SpellsFieldName, simple_starts, value_starts, value_goes_on, members_goes_on};
ghost use Rattle.aadl_parse.specs.ValueText.{SpellsValue, SpellsNext, SpellsEach, SpellsFirst, SpellsField};

use crate::leaf::{read_one, stands};
use crate::name_token::BareName;
use crate::simple_value::{simple_stands, simple_value};
use crate::symbols::{sign, stands_mark};
use aadl_tree::{Mark, PropertyValue, RecordField, Token};
use hw_text::{Cursor, Name, Placed, ReadFault, Rows};
use std::alloc::Global;

/// Reads a value.
#[cycle(values)]
pub fn read_value(
    alloc: Global,
    tokens: &mut Cursor<'_, Placed<Token>>,
) -> Result<PropertyValue, ReadFault>
    ensures { Reads SpellsValue (Without value_goes_on) tokens.old tokens.new result }
{
    if stands_mark(tokens, Mark::OpenParenthesis) {
        return read_list(alloc, tokens);
    }
    if stands_mark(tokens, Mark::OpenBracket) {
        return read_record(alloc, tokens);
    }
    simple_value(alloc, tokens)
}

/// Reads a list, whose opening mark stands ahead.
#[cycle(values)]
fn read_list(
    alloc: Global,
    tokens: &mut Cursor<'_, Placed<Token>>,
) -> Result<PropertyValue, ReadFault>
    requires { begins (one_of (codes "(" ∷ [])) tokens.old ≡ true }
    ensures { Reads SpellsValue (Without value_goes_on) tokens.old tokens.new result }
{
    sign(tokens, Mark::OpenParenthesis)?;
    let values = read_members(alloc, tokens)?;
    sign(tokens, Mark::CloseParenthesis)?;
    Ok(PropertyValue::List(values))
}

/// Reads the members of a list, where there are some.
#[cycle(values)]
fn read_members(
    alloc: Global,
    tokens: &mut Cursor<'_, Placed<Token>>,
) -> Result<Rows<PropertyValue>, ReadFault>
    ensures { Reads SpellsEach (Without (value_starts ++ members_goes_on)) tokens.old tokens.new result }
{
    if !value_stands(tokens) {
        return Ok(Rows::new(alloc));
    }
    read_first(alloc, tokens)
}

/// Reads a value, and those that stand behind commas.
#[cycle(values)]
fn read_first(
    alloc: Global,
    tokens: &mut Cursor<'_, Placed<Token>>,
) -> Result<Rows<PropertyValue>, ReadFault>
    ensures { Reads SpellsFirst (Without members_goes_on) tokens.old tokens.new result }
{
    let first = read_value(alloc, tokens)?;
    let mut values = Rows::new(alloc);
    values.push(first)?;
    read_others(alloc, tokens, values)
}

/// Reads the values that stand behind commas, behind those that were read before.
#[cycle(values)]
fn read_others(
    alloc: Global,
    tokens: &mut Cursor<'_, Placed<Token>>,
    earlier: Rows<PropertyValue>,
) -> Result<Rows<PropertyValue>, ReadFault>
    ensures { Reads (Made (λ later. earlier ++ later) (Each SpellsNext)) (Without members_goes_on) tokens.old tokens.new result }
{
    let mut values = earlier;
    'members: while stands_mark(tokens, Mark::Comma) {
        let value = read_next(alloc, tokens)?;
        values.push(value)?;
    }
    Ok(values)
}

/// Reads a value behind a comma.
#[cycle(values)]
fn read_next(
    alloc: Global,
    tokens: &mut Cursor<'_, Placed<Token>>,
) -> Result<PropertyValue, ReadFault>
    ensures { Reads SpellsNext (Without value_goes_on) tokens.old tokens.new result }
{
    sign(tokens, Mark::Comma)?;
    let value = read_value(alloc, tokens)?;
    Ok(value)
}

/// Reads a record, whose opening mark stands ahead.
#[cycle(values)]
fn read_record(
    alloc: Global,
    tokens: &mut Cursor<'_, Placed<Token>>,
) -> Result<PropertyValue, ReadFault>
    requires { begins (one_of (codes "[" ∷ [])) tokens.old ≡ true }
    ensures { Reads SpellsValue (Without value_goes_on) tokens.old tokens.new result }
{
    sign(tokens, Mark::OpenBracket)?;
    let fields = read_fields(alloc, tokens)?;
    sign(tokens, Mark::CloseBracket)?;
    Ok(PropertyValue::Record(fields))
}

/// Reads the fields of a record.
#[cycle(values)]
fn read_fields(
    alloc: Global,
    tokens: &mut Cursor<'_, Placed<Token>>,
) -> Result<Rows<RecordField>, ReadFault>
    ensures { Reads (Each SpellsField) (Without name_shapes) tokens.old tokens.new result }
{
    let mut fields = Rows::new(alloc);
    'members: while stands::<BareName>(tokens) {
        let field = read_field(alloc, tokens)?;
        fields.push(field)?;
    }
    Ok(fields)
}

/// Reads a field, up to the mark behind it.
#[cycle(values)]
fn read_field(
    alloc: Global,
    tokens: &mut Cursor<'_, Placed<Token>>,
) -> Result<RecordField, ReadFault>
    ensures { Reads SpellsField (Without []) tokens.old tokens.new result }
{
    let name = read_field_name(alloc, tokens)?;
    let value = read_value(alloc, tokens)?;
    sign(tokens, Mark::Semicolon)?;
    Ok(RecordField { name, value })
}

/// Whether a token stands ahead with which a value may begin.
fn value_stands(tokens: &Cursor<'_, Placed<Token>>) -> bool
    ensures { result ≡ begins (one_of value_starts) tokens.now }
{
    stands_mark(tokens, Mark::OpenParenthesis) || bracket_or_simple_stands(tokens)
}

fn bracket_or_simple_stands(tokens: &Cursor<'_, Placed<Token>>) -> bool
    ensures { result ≡ begins (one_of (codes "[" ∷ simple_starts)) tokens.now }
{
    stands_mark(tokens, Mark::OpenBracket) || simple_stands(tokens)
}

/// Reads the name of a field, and the mark behind it.
fn read_field_name(alloc: Global, tokens: &mut Cursor<'_, Placed<Token>>) -> Result<Name, ReadFault>
    ensures { Reads SpellsFieldName (Without []) tokens.old tokens.new result }
{
    let name = read_one::<BareName>(alloc, tokens)?;
    sign(tokens, Mark::Association)?;
    Ok(name)
}
