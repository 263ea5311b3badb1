//! Contracts: what a thread remembers, and what it assumes and guarantees.

ghost use Rattle.std.specs.Prelude.{◌≡◌, []};
ghost use Rattle.gumbo_parse.specs.Annex.{clause_word};

use crate::class::Variable;
use crate::description::Description;
use crate::expression::{Expression, Named};
use crate::word::Word;
use hw_text::{Place, Rows};

/// Whether a clause is assumed or guaranteed.
#[derive(Clone, Copy)]
pub enum ClauseKind {
    Assume,
    Guarantee,
}

impl ClauseKind {
    /// The word with which such a clause begins.
    pub fn word(self) -> Word
        ensures { result ≡ clause_word self }
    {
        match self {
            ClauseKind::Assume => Word::Assume,
            ClauseKind::Guarantee => Word::Guarantee,
        }
    }
}

/// A condition on the values of a thread, under a name of its own.
#[derive(Drop)]
pub struct Clause {
    pub kind: ClauseKind,
    pub name: Named,
    pub description: Option<Description>,
    /// Where the expression's first token stands.
    pub expression_place: Place,
    pub expression: Expression,
}

/// The clauses of the items of a port, of which there is one at least.
#[derive(Drop)]
pub struct Handler {
    pub port: Named,
    pub first: Clause,
    pub others: Rows<Clause>,
}

/// The clauses of an entry point, and of the items that it takes.
#[derive(Drop)]
pub struct Compute {
    pub clauses: Rows<Clause>,
    pub handlers: Rows<Handler>,
}

/// The contract of a thread, section by section. A section of no variable or clause is not written; that
/// of the entry point is written wherever it is there, even without a clause.
#[derive(Drop)]
pub struct Contract {
    pub state: Rows<Variable>,
    pub integration: Rows<Clause>,
    pub initialize: Rows<Clause>,
    pub compute: Option<Compute>,
}
