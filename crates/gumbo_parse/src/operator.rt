//! The operators of expressions, and how tightly they bind.

ghost use Rattle.std.specs.Prelude.{◌≡◌};
ghost use Rattle.gumbo_parse.specs.Levels.{unary_level, binary_level};

use crate::level::Level;

/// An operator with one operand.
#[derive(Clone, Copy)]
pub enum UnaryOperator {
    Not,
    Minus,
}

/// An operator with two operands.
#[derive(Clone, Copy)]
pub enum BinaryOperator {
    Implies,
    Or,
    And,
    Equal,
    NotEqual,
    Less,
    LessOrEqual,
    Greater,
    GreaterOrEqual,
    Add,
    Subtract,
    Multiply,
    Divide,
    Remainder,
}

/// Whether something is to hold for all numbers of a range, or for some.
#[derive(Clone, Copy)]
pub enum Quantifier {
    ForAll,
    Exists,
}

/// What is asked of a port alone.
#[derive(Clone, Copy)]
pub enum PortTest {
    /// Whether an item has come in at the port.
    HasEvent,
    /// Whether nothing goes out at the port.
    NoSend,
    /// Whether something goes out at the port, whatever its value.
    MustSend,
}

impl UnaryOperator {
    /// How tightly it binds, and its operand has to.
    pub fn level(self) -> Level
        ensures { result ≡ unary_level self }
    {
        match self {
            UnaryOperator::Not => Level::Negation,
            UnaryOperator::Minus => Level::Sign,
        }
    }
}

impl BinaryOperator {
    /// How tightly it binds.
    pub fn level(self) -> Level
        ensures { result ≡ binary_level self }
    {
        match self {
            BinaryOperator::Implies => Level::Implication,
            BinaryOperator::Or => Level::Disjunction,
            BinaryOperator::And => Level::Conjunction,
            BinaryOperator::Equal
            | BinaryOperator::NotEqual
            | BinaryOperator::Less
            | BinaryOperator::LessOrEqual
            | BinaryOperator::Greater
            | BinaryOperator::GreaterOrEqual => Level::Comparison,
            BinaryOperator::Add | BinaryOperator::Subtract => Level::Sum,
            BinaryOperator::Multiply | BinaryOperator::Divide | BinaryOperator::Remainder => {
                Level::Product
            }
        }
    }
}
