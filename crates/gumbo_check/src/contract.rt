//! The contract of a domain.

ghost use Rattle.std.specs.Prelude.{◌≡◌};
ghost use Rattle.gumbo_check.specs.Checked.{empty_contract};

use crate::{Clause, StateVar};
use hw_text::Rows;
use std::alloc::Global;
use std::marker::Model;

/// A contract, which contracts of functions see as its clauses and state variables.
#[derive(Debug, Drop)]
pub struct CheckedContract {
    clauses: Rows<Clause>,
    state: Rows<StateVar>,
}

impl Model for CheckedContract {
    ghost use Rattle.gumbo_check.specs.Checked.{Checked};

    ghost Value = { Checked };

    ghost view = { λ c. record { clauses = c.clauses; state = c.state } };
}

impl CheckedContract {
    /// The contract without clauses and state variables, which takes no memory.
    pub fn empty(alloc: Global) -> CheckedContract
        ensures { result ≡ empty_contract }
    {
        CheckedContract {
            clauses: Rows::new(alloc),
            state: Rows::new(alloc),
        }
    }

    /// The clauses, in the order of the text.
    pub fn clauses(&self) -> &[Clause]
        ensures { result.now ≡ self.now.clauses }
    {
        self.clauses.rows()
    }

    /// The state variables, in the order of the text.
    pub fn state(&self) -> &[StateVar]
        ensures { result.now ≡ self.now.state }
    {
        self.state.rows()
    }
}
