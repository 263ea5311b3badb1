//! Reading the sections of contracts.

ghost use Rattle.std.specs.Prelude.{◌∷◌, ◌++◌};
ghost use Rattle.hw_text.specs.Reading.{Reads, TheEnd};
ghost use Rattle.hw_reading.specs.Lists.{SomeOf};
ghost use Rattle.hw_reading.specs.Shapes.{shapes_of};
ghost use Rattle.gumbo_parse.specs.declared.shape.Shape.TheVariants as shape;
ghost use Rattle.gumbo_parse.specs.declared.word.Word.TheVariants as word;
ghost use Rattle.gumbo_parse.specs.Annex.{kinds, initial, SpellsClause, SpellsState, SpellsIntegration, SpellsInitialize, SpellsContract};
ghost use Rattle.gumbo_parse.specs.Classes.{SpellsVariable};
ghost use Rattle.gumbo_parse.specs.Values.{Without, name_shapes};

use crate::class::Variable;
use crate::classes::{more_variables, variable};
use crate::clauses::{clause, more_clauses};
use crate::contract::{Clause, Contract};
use crate::entry_point::compute;
use crate::shape::Shape;
use crate::tables::INITIAL;
use crate::token::Token;
use crate::word::Word;
use hw_reading::{Grammar, read_listed, stands, stands_listed, symbol};
use hw_text::{Cursor, Placed, ReadFault, Rows};
use std::alloc::Global;

/// Reads state variables, of which there is one at least.
fn some_variables(
    alloc: Global,
    tokens: &mut Cursor<'_, Placed<Token>>,
) -> Result<Rows<Variable>, ReadFault>
    ensures { Reads (SomeOf SpellsVariable) (Without name_shapes) tokens.old tokens.new result }
{
    let first = variable(alloc, tokens)?;
    let mut read = Rows::new(alloc);
    read.push(first)?;
    more_variables(alloc, tokens, read)
}

/// Reads clauses, of which there is one at least.
fn some_clauses(
    alloc: Global,
    tokens: &mut Cursor<'_, Placed<Token>>,
) -> Result<Rows<Clause>, ReadFault>
    ensures { Reads (SomeOf SpellsClause) (Without (shapes_of kinds)) tokens.old tokens.new result }
{
    let first = clause(alloc, tokens)?;
    let mut read = Rows::new(alloc);
    read.push(first)?;
    more_clauses(alloc, tokens, read)
}

/// Reads the section of state variables, where it is ahead.
fn state(alloc: Global, tokens: &mut Cursor<'_, Placed<Token>>) -> Result<Rows<Variable>, ReadFault>
    ensures { Reads SpellsState (Without (shape.Word word.State ∷ name_shapes)) tokens.old tokens.new result }
{
    if !stands(tokens, Shape::Word(Word::State)) {
        return Ok(Rows::new(alloc));
    }
    symbol(tokens, Shape::Word(Word::State))?;
    let variables = some_variables(alloc, tokens)?;
    Ok(variables)
}

/// Reads the section of clauses that speak of one port, where it is ahead.
fn integration(
    alloc: Global,
    tokens: &mut Cursor<'_, Placed<Token>>,
) -> Result<Rows<Clause>, ReadFault>
    ensures { Reads SpellsIntegration (Without (shape.Word word.Integration ∷ shapes_of kinds)) tokens.old tokens.new result }
{
    if !stands(tokens, Shape::Word(Word::Integration)) {
        return Ok(Rows::new(alloc));
    }
    symbol(tokens, Shape::Word(Word::Integration))?;
    let clauses = some_clauses(alloc, tokens)?;
    Ok(clauses)
}

/// Reads the section of clauses that hold at the start, where it is ahead.
fn initialize(
    alloc: Global,
    tokens: &mut Cursor<'_, Placed<Token>>,
) -> Result<Rows<Clause>, ReadFault>
    ensures { Reads SpellsInitialize (Without (shapes_of initial ++ shapes_of kinds)) tokens.old tokens.new result }
{
    if !stands_listed(tokens, &INITIAL) {
        return Ok(Rows::new(alloc));
    }
    read_listed(tokens, &INITIAL)?;
    let clauses = some_clauses(alloc, tokens)?;
    Ok(clauses)
}

/// Reads a contract, behind which nothing stands.
fn contract(alloc: Global, tokens: &mut Cursor<'_, Placed<Token>>) -> Result<Contract, ReadFault>
    ensures { Reads SpellsContract TheEnd tokens.old tokens.new result }
{
    let state = state(alloc, tokens)?;
    let integration = integration(alloc, tokens)?;
    let initialize = initialize(alloc, tokens)?;
    let compute = compute(alloc, tokens)?;
    Ok(Contract {
        state,
        integration,
        initialize,
        compute,
    })
}

/// The grammar of contracts.
pub struct Annex;

impl Grammar for Annex {
    type Token = Token;

    type Value = Contract;

    ghost spells = { λ annex. SpellsContract };

    fn read(
        &self,
        alloc: Global,
        tokens: &mut Cursor<'_, Placed<Token>>,
    ) -> Result<Self::Value, ReadFault> {
        contract(alloc, tokens)
    }
}
