//! Statements, as trees.

use crate::expression::{Call, Lvalue, RightSide};
use crate::integer_type::IntegerType;
use crate::named::{Literal, Named, SignedLiteral};
use crate::type_name::TypeName;
use hw_text::{Place, Rows};

/// What a local variable begins with.
#[derive(Debug, Drop)]
pub enum LocalValue {
    /// An array of this length, all zero.
    ZeroArray(Literal),
    Zero,
    Given(RightSide),
}

/// A condition, and what is done where it holds.
#[cycle(statement)]
#[derive(Debug, Drop)]
pub struct Branch {
    pub condition: RightSide,
    pub body: Rows<Statement>,
}

/// What is done where no condition of an `if` holds.
#[cycle(statement)]
#[derive(Debug, Drop)]
pub enum Otherwise {
    Nothing,
    Block(Rows<Statement>),
}

/// A statement; what is not listed here is none of the subset.
#[cycle(statement)]
#[derive(Debug, Drop)]
pub enum Statement {
    Local {
        class: TypeName,
        name: Named,
        value: LocalValue,
    },
    Assign {
        target: Lvalue,
        value: RightSide,
    },
    Call(Call),
    /// `if`, each `else if`, and what the last `else` has.
    If {
        first: Branch,
        others: Rows<Branch>,
        otherwise: Otherwise,
    },
    /// `for` over the numbers from one literal to below another.
    Count {
        class: IntegerType,
        name: Named,
        from: SignedLiteral,
        /// Where the `<` stands.
        place: Place,
        below: SignedLiteral,
        body: Rows<Statement>,
    },
    /// `for (;;)`
    Forever(Rows<Statement>),
    Break,
}
