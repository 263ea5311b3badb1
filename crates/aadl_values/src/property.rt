//! The properties that have a meaning.

ghost use Rattle.std.specs.Prelude.{◌≡◌};
ghost use Rattle.aadl_values.specs.Spellings.{property_word};
ghost use Rattle.aadl_values.specs.Columns.{property_named};

use crate::spelled::{Spelled, spelled_among};
use aadl_tree::QualifiedName;

/// A property of the table (SAE AS5506, predeclared properties and the data model annex;
/// Frame_Period is this project's own).
#[derive(Clone, Copy, Debug, PartialEq, Eq)]
pub enum Property {
    DispatchProtocol,
    Period,
    ComputeExecutionTime,
    FramePeriod,
    QueueSize,
    OverflowHandlingProtocol,
    DequeueProtocol,
    ActualProcessorBinding,
    DataRepresentation,
    Enumerators,
    BaseType,
    Dimension,
}

static PROPERTIES: [Property; 12] = [
    Property::DispatchProtocol,
    Property::Period,
    Property::ComputeExecutionTime,
    Property::FramePeriod,
    Property::QueueSize,
    Property::OverflowHandlingProtocol,
    Property::DequeueProtocol,
    Property::ActualProcessorBinding,
    Property::DataRepresentation,
    Property::Enumerators,
    Property::BaseType,
    Property::Dimension,
];

#[tactic(auto, unfolding(crate::specs::Spellings::property_word))]
impl Spelled for Property {
    ghost spelling_of = { property_word };

    fn spelling(self) -> &'static str {
        match self {
            Property::DispatchProtocol => "dispatch_protocol",
            Property::Period => "period",
            Property::ComputeExecutionTime => "compute_execution_time",
            Property::FramePeriod => "frame_period",
            Property::QueueSize => "queue_size",
            Property::OverflowHandlingProtocol => "overflow_handling_protocol",
            Property::DequeueProtocol => "dequeue_protocol",
            Property::ActualProcessorBinding => "actual_processor_binding",
            Property::DataRepresentation => "data_representation",
            Property::Enumerators => "enumerators",
            Property::BaseType => "base_type",
            Property::Dimension => "dimension",
        }
    }
}

/// The property of this name, whatever set name stands before it.
pub fn property_named(name: &QualifiedName) -> Option<Property>
    ensures { result ≡ property_named name.now }
{
    spelled_among(&PROPERTIES, name.last().rows())
}
