//! Reading the section of the entry point, with the clauses of the items of ports.

ghost use Rattle.std.specs.Prelude.{◌∷◌};
ghost use Rattle.hw_text.specs.Language.{Maybe, Each};
ghost use Rattle.hw_text.specs.Reading.{Reads, TheEnd};
ghost use Rattle.hw_reading.specs.Shapes.{shapes_of};
ghost use Rattle.gumbo_parse.specs.declared.shape.Shape.TheVariants as shape;
ghost use Rattle.gumbo_parse.specs.declared.word.Word.TheVariants as word;
ghost use Rattle.gumbo_parse.specs.Annex.{kinds, SpellsClause, SpellsHandler, SpellsCompute};
ghost use Rattle.gumbo_parse.specs.Values.{Without};

use crate::clauses::{clause, more_clauses};
use crate::contract::{Clause, Compute, Handler};
use crate::mark::Mark;
use crate::shape::Shape;
use crate::terminals::NameAt;
use crate::token::Token;
use crate::word::Word;
use hw_reading::{read_one, stands, symbol};
use hw_text::{Cursor, Placed, ReadFault, Rows};
use std::alloc::Global;

/// Reads the clauses of the items of a port.
fn handler(alloc: Global, tokens: &mut Cursor<'_, Placed<Token>>) -> Result<Handler, ReadFault>
    ensures { Reads SpellsHandler (Without (shapes_of kinds)) tokens.old tokens.new result }
{
    symbol(tokens, Shape::Word(Word::Handle))?;
    let port = read_one::<NameAt>(alloc, tokens)?;
    symbol(tokens, Shape::Mark(Mark::Colon))?;
    let first = clause(alloc, tokens)?;
    let others = clauses(alloc, tokens)?;
    Ok(Handler {
        port,
        first,
        others,
    })
}

/// Reads clauses, as long as one is ahead.
fn clauses(alloc: Global, tokens: &mut Cursor<'_, Placed<Token>>) -> Result<Rows<Clause>, ReadFault>
    ensures { Reads (Each SpellsClause) (Without (shapes_of kinds)) tokens.old tokens.new result }
{
    more_clauses(alloc, tokens, Rows::new(alloc))
}

/// Reads handlers, as long as one is ahead.
fn handlers(
    alloc: Global,
    tokens: &mut Cursor<'_, Placed<Token>>,
) -> Result<Rows<Handler>, ReadFault>
    ensures { Reads (Each SpellsHandler) (Without (shape.Word word.Handle ∷ shapes_of kinds)) tokens.old tokens.new result }
{
    let mut handlers = Rows::new(alloc);
    'handlers: while stands(tokens, Shape::Word(Word::Handle)) {
        let handler = handler(alloc, tokens)?;
        handlers.push(handler)?;
    }
    Ok(handlers)
}

/// Reads the section of the entry point.
fn entry(alloc: Global, tokens: &mut Cursor<'_, Placed<Token>>) -> Result<Compute, ReadFault>
    ensures { Reads SpellsCompute TheEnd tokens.old tokens.new result }
{
    symbol(tokens, Shape::Word(Word::Compute))?;
    let clauses = clauses(alloc, tokens)?;
    let handlers = handlers(alloc, tokens)?;
    Ok(Compute { clauses, handlers })
}

/// Reads the section of the entry point, where it is ahead.
pub fn compute(
    alloc: Global,
    tokens: &mut Cursor<'_, Placed<Token>>,
) -> Result<Option<Compute>, ReadFault>
    ensures { Reads (Maybe SpellsCompute) TheEnd tokens.old tokens.new result }
{
    if !stands(tokens, Shape::Word(Word::Compute)) {
        return Ok(None);
    }
    let compute = entry(alloc, tokens)?;
    Ok(Some(compute))
}
