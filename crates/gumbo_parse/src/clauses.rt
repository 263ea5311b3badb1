//! Reading clauses.

ghost use Rattle.std.specs.Prelude.{[], ◌∷◌, ◌++◌};
ghost use Rattle.hw_text.specs.Language.{One, Maybe, Each, Made};
ghost use Rattle.hw_text.specs.Reading.{Reads, Anything};
ghost use Rattle.hw_reading.specs.Shapes.{shapes_of};
ghost use Rattle.gumbo_parse.specs.declared.shape.Shape.TheVariants as shape;
ghost use Rattle.gumbo_parse.specs.Annex.{kinds, SpellsClause};
ghost use Rattle.gumbo_parse.specs.Values.{Without, text_of};

use crate::contract::Clause;
use crate::description::Description;
use crate::levels::read_started;
use crate::mark::Mark;
use crate::shape::Shape;
use crate::tables::KINDS;
use crate::terminals::{NameAt, TextAt};
use crate::token::Token;
use hw_reading::{read_listed, read_one, stands, stands_listed, symbol};
use hw_text::{Cursor, Placed, ReadFault, Rows};
use std::alloc::Global;

/// Reads what describes a clause, where it is ahead.
fn description(
    alloc: Global,
    tokens: &mut Cursor<'_, Placed<Token>>,
) -> Result<Option<Description>, ReadFault>
    ensures { Reads (Maybe (One text_of)) (Without (shape.Text ∷ [])) tokens.old tokens.new result }
{
    if !stands(tokens, Shape::Text) {
        return Ok(None);
    }
    let text = read_one::<TextAt>(alloc, tokens)?;
    Ok(Some(text))
}

/// Reads a clause.
pub fn clause(alloc: Global, tokens: &mut Cursor<'_, Placed<Token>>) -> Result<Clause, ReadFault>
    ensures { Reads SpellsClause Anything tokens.old tokens.new result }
{
    let (_, kind) = read_listed(tokens, &KINDS)?;
    let name = read_one::<NameAt>(alloc, tokens)?;
    let description = description(alloc, tokens)?;
    symbol(tokens, Shape::Mark(Mark::Colon))?;
    let (expression_place, expression) = read_started(alloc, tokens)?;
    symbol(tokens, Shape::Mark(Mark::Semicolon))?;
    Ok(Clause {
        kind,
        name,
        description,
        expression_place,
        expression,
    })
}

/// Reads clauses, as long as one is ahead, behind those that were read before.
pub fn more_clauses(
    alloc: Global,
    tokens: &mut Cursor<'_, Placed<Token>>,
    earlier: Rows<Clause>,
) -> Result<Rows<Clause>, ReadFault>
    ensures { Reads (Made (λ later. earlier ++ later) (Each SpellsClause)) (Without (shapes_of kinds)) tokens.old tokens.new result }
{
    let mut clauses = earlier;
    'clauses: while stands_listed(tokens, &KINDS) {
        let clause = clause(alloc, tokens)?;
        clauses.push(clause)?;
    }
    Ok(clauses)
}
