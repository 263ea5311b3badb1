//! The operators of each level, as they are written.

ghost use Rattle.std.specs.Prelude.{◌≡◌};
ghost use Rattle.gumbo_parse.specs.Levels.{infixes, prefixes};

use crate::level::Level;
use crate::mark::Mark;
use crate::operator::{BinaryOperator, UnaryOperator};
use crate::shape::Shape;
use crate::word::Word;

static IMPLICATIONS: [(Shape, BinaryOperator); 2] = [
    (Shape::Word(Word::Implies), BinaryOperator::Implies),
    (Shape::Mark(Mark::Implication), BinaryOperator::Implies),
];

static DISJUNCTIONS: [(Shape, BinaryOperator); 2] = [
    (Shape::Word(Word::Or), BinaryOperator::Or),
    (Shape::Mark(Mark::Bar), BinaryOperator::Or),
];

static CONJUNCTIONS: [(Shape, BinaryOperator); 2] = [
    (Shape::Word(Word::And), BinaryOperator::And),
    (Shape::Mark(Mark::Ampersand), BinaryOperator::And),
];

static COMPARISONS: [(Shape, BinaryOperator); 6] = [
    (Shape::Mark(Mark::Equal), BinaryOperator::Equal),
    (Shape::Mark(Mark::NotEqual), BinaryOperator::NotEqual),
    (Shape::Mark(Mark::Less), BinaryOperator::Less),
    (Shape::Mark(Mark::LessOrEqual), BinaryOperator::LessOrEqual),
    (Shape::Mark(Mark::Greater), BinaryOperator::Greater),
    (
        Shape::Mark(Mark::GreaterOrEqual),
        BinaryOperator::GreaterOrEqual,
    ),
];

static SUMS: [(Shape, BinaryOperator); 2] = [
    (Shape::Mark(Mark::Plus), BinaryOperator::Add),
    (Shape::Mark(Mark::Minus), BinaryOperator::Subtract),
];

static PRODUCTS: [(Shape, BinaryOperator); 3] = [
    (Shape::Mark(Mark::Star), BinaryOperator::Multiply),
    (Shape::Mark(Mark::Slash), BinaryOperator::Divide),
    (Shape::Mark(Mark::Percent), BinaryOperator::Remainder),
];

static NEGATIONS: [(Shape, UnaryOperator); 2] = [
    (Shape::Word(Word::Not), UnaryOperator::Not),
    (Shape::Mark(Mark::Bang), UnaryOperator::Not),
];

static SIGNS: [(Shape, UnaryOperator); 1] = [(Shape::Mark(Mark::Minus), UnaryOperator::Minus)];

impl Level {
    /// The operators between operands of the level.
    pub fn infixes(self) -> &'static [(Shape, BinaryOperator)]
        ensures { result.now ≡ infixes self }
    {
        match self {
            Level::Implication => &IMPLICATIONS,
            Level::Disjunction => &DISJUNCTIONS,
            Level::Conjunction => &CONJUNCTIONS,
            Level::Comparison => &COMPARISONS,
            Level::Sum => &SUMS,
            Level::Product => &PRODUCTS,
            Level::Negation | Level::Sign | Level::Operand => &[],
        }
    }

    /// The operators before an operand of the level.
    pub fn prefixes(self) -> &'static [(Shape, UnaryOperator)]
        ensures { result.now ≡ prefixes self }
    {
        match self {
            Level::Negation => &NEGATIONS,
            Level::Sign => &SIGNS,
            _ => &[],
        }
    }
}
