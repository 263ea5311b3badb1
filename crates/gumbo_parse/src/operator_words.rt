//! The words and marks that operators are printed as.

ghost use Rattle.std.specs.Prelude.{◌≡◌};
ghost use Rattle.gumbo_parse.specs.Operators.{binary_text, quantifier_word, test_word};

use crate::operator::{BinaryOperator, PortTest, Quantifier};
use crate::word::Word;

impl BinaryOperator {
    /// The word or mark that it is printed as.
    pub fn text(self) -> &'static str
        ensures { result.now ≡ binary_text self }
    {
        match self {
            BinaryOperator::Implies => "implies",
            BinaryOperator::Or => "or",
            BinaryOperator::And => "and",
            BinaryOperator::Equal => "==",
            BinaryOperator::NotEqual => "!=",
            BinaryOperator::Less => "<",
            BinaryOperator::LessOrEqual => "<=",
            BinaryOperator::Greater => ">",
            BinaryOperator::GreaterOrEqual => ">=",
            BinaryOperator::Add => "+",
            BinaryOperator::Subtract => "-",
            BinaryOperator::Multiply => "*",
            BinaryOperator::Divide => "/",
            BinaryOperator::Remainder => "%",
        }
    }
}

impl Quantifier {
    /// The word that it is written as.
    pub fn word(self) -> Word
        ensures { result ≡ quantifier_word self }
    {
        match self {
            Quantifier::ForAll => Word::ForAll,
            Quantifier::Exists => Word::Exists,
        }
    }
}

impl PortTest {
    /// The word before the port's name in parentheses.
    pub fn word(self) -> Word
        ensures { result ≡ test_word self }
    {
        match self {
            PortTest::HasEvent => Word::HasEvent,
            PortTest::NoSend => Word::NoSend,
            PortTest::MustSend => Word::MustSend,
        }
    }
}
