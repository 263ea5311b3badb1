//! Reading state variables and their types.

ghost use Rattle.std.specs.Prelude.{[], ◌∷◌, ◌++◌, codes};
ghost use Rattle.hw_text.specs.Language.{Maybe, Each, Made};
ghost use Rattle.hw_text.specs.Reading.{Reads, Anything};
ghost use Rattle.gumbo_parse.specs.declared.shape.Shape.TheVariants as shape;
ghost use Rattle.gumbo_parse.specs.declared.mark.Mark.TheVariants as mark;
ghost use Rattle.gumbo_parse.specs.Classes.{SpellsBase, SpellsStep, SpellsImplementation, SpellsModel, SpellsClass, SpellsVariable};
ghost use Rattle.gumbo_parse.specs.Values.{Without, name_shapes};

use crate::class::{Class, ModelType, Variable};
use crate::identifier::Identifier;
use crate::mark::Mark;
use crate::shape::Shape;
use crate::terminals::{BaseAt, NameAt, OtherNameAt};
use crate::token::Token;
use hw_reading::{read_one, stands, stands_either, symbol};
use hw_text::{Cursor, Placed, ReadFault, Rows};
use std::alloc::Global;

/// Reads a base type.
fn base(alloc: Global, tokens: &mut Cursor<'_, Placed<Token>>) -> Result<Class, ReadFault>
    ensures { Reads SpellsBase Anything tokens.old tokens.new result }
{
    let place = symbol(tokens, Shape::BasePackage)?;
    symbol(tokens, Shape::Mark(Mark::DoubleColon))?;
    let base = read_one::<BaseAt>(alloc, tokens)?;
    Ok(Class::Base(place, base))
}

/// Reads a name behind two colons.
fn step(alloc: Global, tokens: &mut Cursor<'_, Placed<Token>>) -> Result<Identifier, ReadFault>
    ensures { Reads SpellsStep Anything tokens.old tokens.new result }
{
    symbol(tokens, Shape::Mark(Mark::DoubleColon))?;
    let named = read_one::<NameAt>(alloc, tokens)?;
    Ok(named.name)
}

/// Reads names behind two colons, as long as one is ahead.
fn steps(
    alloc: Global,
    tokens: &mut Cursor<'_, Placed<Token>>,
) -> Result<Rows<Identifier>, ReadFault>
    ensures { Reads (Each SpellsStep) (Without (shape.Mark mark.DoubleColon ∷ [])) tokens.old tokens.new result }
{
    let mut names = Rows::new(alloc);
    'names: while stands(tokens, Shape::Mark(Mark::DoubleColon)) {
        let name = step(alloc, tokens)?;
        names.push(name)?;
    }
    Ok(names)
}

/// Reads a name behind a dot.
fn dotted(alloc: Global, tokens: &mut Cursor<'_, Placed<Token>>) -> Result<Identifier, ReadFault>
    ensures { Reads SpellsImplementation Anything tokens.old tokens.new result }
{
    symbol(tokens, Shape::Mark(Mark::Dot))?;
    let named = read_one::<NameAt>(alloc, tokens)?;
    Ok(named.name)
}

/// Reads the name of an implementation, where one is ahead.
fn implementation(
    alloc: Global,
    tokens: &mut Cursor<'_, Placed<Token>>,
) -> Result<Option<Identifier>, ReadFault>
    ensures { Reads (Maybe SpellsImplementation) (Without (shape.Mark mark.Dot ∷ [])) tokens.old tokens.new result }
{
    if !stands(tokens, Shape::Mark(Mark::Dot)) {
        return Ok(None);
    }
    let name = dotted(alloc, tokens)?;
    Ok(Some(name))
}

/// Reads a type of the model's own.
fn model(alloc: Global, tokens: &mut Cursor<'_, Placed<Token>>) -> Result<Class, ReadFault>
    ensures { Reads SpellsModel (Without (shape.Mark mark.DoubleColon ∷ shape.Mark mark.Dot ∷ [])) tokens.old tokens.new result }
{
    let first = read_one::<OtherNameAt>(alloc, tokens)?;
    let others = steps(alloc, tokens)?;
    let implementation = implementation(alloc, tokens)?;
    Ok(Class::Model(ModelType {
        first,
        others,
        implementation,
    }))
}

/// Reads the type of a state variable.
fn class(alloc: Global, tokens: &mut Cursor<'_, Placed<Token>>) -> Result<Class, ReadFault>
    ensures { Reads SpellsClass (Without (shape.Mark mark.DoubleColon ∷ shape.Mark mark.Dot ∷ [])) tokens.old tokens.new result }
{
    if stands(tokens, Shape::BasePackage) {
        return base(alloc, tokens);
    }
    model(alloc, tokens)
}

/// Reads a state variable.
pub fn variable(
    alloc: Global,
    tokens: &mut Cursor<'_, Placed<Token>>,
) -> Result<Variable, ReadFault>
    ensures { Reads SpellsVariable Anything tokens.old tokens.new result }
{
    let name = read_one::<NameAt>(alloc, tokens)?;
    symbol(tokens, Shape::Mark(Mark::Colon))?;
    let class = class(alloc, tokens)?;
    symbol(tokens, Shape::Mark(Mark::Semicolon))?;
    Ok(Variable { name, class })
}

/// Reads state variables, as long as one is ahead, behind those that were read before.
pub fn more_variables(
    alloc: Global,
    tokens: &mut Cursor<'_, Placed<Token>>,
    earlier: Rows<Variable>,
) -> Result<Rows<Variable>, ReadFault>
    ensures { Reads (Made (λ later. earlier ++ later) (Each SpellsVariable)) (Without name_shapes) tokens.old tokens.new result }
{
    let mut variables = earlier;
    'variables: while stands_either(tokens, Shape::Name, Shape::BasePackage) {
        let variable = variable(alloc, tokens)?;
        variables.push(variable)?;
    }
    Ok(variables)
}
