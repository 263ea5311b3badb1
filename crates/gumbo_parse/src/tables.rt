//! The words of which each stands for a value.

use crate::contract::ClauseKind;
use crate::operator::{PortTest, Quantifier};
use crate::shape::Shape;
use crate::word::Word;

pub static TRUTHS: [(Shape, bool); 2] = [
    (Shape::Word(Word::True), true),
    (Shape::Word(Word::False), false),
];

/// The words that ask something of a port alone.
pub static TESTS: [(Shape, PortTest); 2] = [
    (Shape::Word(Word::HasEvent), PortTest::HasEvent),
    (Shape::Word(Word::NoSend), PortTest::NoSend),
];

pub static QUANTIFIERS: [(Shape, Quantifier); 2] = [
    (Shape::Word(Word::ForAll), Quantifier::ForAll),
    (Shape::Word(Word::Exists), Quantifier::Exists),
];

/// The words with which clauses begin.
pub static KINDS: [(Shape, ClauseKind); 2] = [
    (Shape::Word(Word::Assume), ClauseKind::Assume),
    (Shape::Word(Word::Guarantee), ClauseKind::Guarantee),
];

/// The two spellings of the word of the section of clauses that hold at the start.
pub static INITIAL: [(Shape, ()); 2] = [
    (Shape::Word(Word::Initialize), ()),
    (Shape::Word(Word::Initialise), ()),
];
