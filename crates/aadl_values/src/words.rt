//! Words as values of properties.

ghost use Rattle.std.specs.Prelude.{◌≡◌};
ghost use Rattle.aadl_values.specs.Spellings.{dispatch_word, dequeue_word, overflow_word, representation_word};
ghost use Rattle.aadl_values.specs.Columns.{one_word, dispatch_of, dequeue_of, overflow_of, representation_of};

use crate::layer::word_in;
use crate::spelled::{Spelled, spelled_among};
use aadl_tree::PropertyValue;

/// When a thread is dispatched (SAE AS5506, Dispatch_Protocol).
#[derive(Clone, Copy, Debug, PartialEq, Eq)]
pub enum Dispatch {
    Periodic,
    Sporadic,
}

/// How much of a queue a dispatch takes (SAE AS5506, Dequeue_Protocol).
#[derive(Clone, Copy, Debug, PartialEq, Eq)]
pub enum Dequeue {
    OneItem,
    AllItems,
}

/// What a full queue loses (SAE AS5506, Overflow_Handling_Protocol).
#[derive(Clone, Copy, Debug, PartialEq, Eq)]
pub enum Overflow {
    DropOldest,
}

/// How a data type is represented, which decides nothing here (SAE AS5506, data model annex).
#[derive(Clone, Copy, Debug, PartialEq, Eq)]
pub enum Representation {
    Enum,
    Array,
    Struct,
    Integer,
    Boolean,
}

static DISPATCHES: [Dispatch; 2] = [Dispatch::Periodic, Dispatch::Sporadic];

static DEQUEUES: [Dequeue; 2] = [Dequeue::OneItem, Dequeue::AllItems];

static OVERFLOWS: [Overflow; 1] = [Overflow::DropOldest];

static REPRESENTATIONS: [Representation; 5] = [
    Representation::Enum,
    Representation::Array,
    Representation::Struct,
    Representation::Integer,
    Representation::Boolean,
];

#[tactic(auto, unfolding(crate::specs::Spellings::dispatch_word))]
impl Spelled for Dispatch {
    ghost spelling_of = { dispatch_word };

    fn spelling(self) -> &'static str {
        match self {
            Dispatch::Periodic => "periodic",
            Dispatch::Sporadic => "sporadic",
        }
    }
}

#[tactic(auto, unfolding(crate::specs::Spellings::dequeue_word))]
impl Spelled for Dequeue {
    ghost spelling_of = { dequeue_word };

    fn spelling(self) -> &'static str {
        match self {
            Dequeue::OneItem => "oneitem",
            Dequeue::AllItems => "allitems",
        }
    }
}

#[tactic(auto, unfolding(crate::specs::Spellings::overflow_word))]
impl Spelled for Overflow {
    ghost spelling_of = { overflow_word };

    fn spelling(self) -> &'static str {
        match self {
            Overflow::DropOldest => "dropoldest",
        }
    }
}

#[tactic(auto, unfolding(crate::specs::Spellings::representation_word))]
impl Spelled for Representation {
    ghost spelling_of = { representation_word };

    fn spelling(self) -> &'static str {
        match self {
            Representation::Enum => "enum",
            Representation::Array => "array",
            Representation::Struct => "struct",
            Representation::Integer => "integer",
            Representation::Boolean => "boolean",
        }
    }
}

/// One word of these.
fn one_word<W: Spelled>(words: &[W], value: &PropertyValue) -> Option<W>
    ensures { result ≡ one_word W.spelling_of words.now value.now }
{
    spelled_among(words, word_in(value)?.rows())
}

/// The word of Dispatch_Protocol.
pub fn dispatch_of(value: &PropertyValue) -> Option<Dispatch>
    ensures { result ≡ dispatch_of value.now }
{
    one_word(&DISPATCHES, value)
}

/// The word of Dequeue_Protocol.
pub fn dequeue_of(value: &PropertyValue) -> Option<Dequeue>
    ensures { result ≡ dequeue_of value.now }
{
    one_word(&DEQUEUES, value)
}

/// The word of Overflow_Handling_Protocol.
pub fn overflow_of(value: &PropertyValue) -> Option<Overflow>
    ensures { result ≡ overflow_of value.now }
{
    one_word(&OVERFLOWS, value)
}

/// The word of Data_Representation.
pub fn representation_of(value: &PropertyValue) -> Option<Representation>
    ensures { result ≡ representation_of value.now }
{
    one_word(&REPRESENTATIONS, value)
}
