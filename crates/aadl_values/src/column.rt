//! Which values each property may have.

ghost use Rattle.std.specs.Prelude.{◌≡◌, option_copied, IfOk};
ghost use Rattle.aadl_values.specs.Columns.{fits, suits};
ghost use Rattle.aadl_values.specs.Layers.{sole_value};

use crate::enumerators::enumerators_of;
use crate::layer::{classifier_of, reference_of};
use crate::numbers::{dimension_of, queue_size_of};
use crate::property::Property;
use crate::times::{positive_time_of, time_range_of};
use crate::words::{dequeue_of, dispatch_of, overflow_of, representation_of};
use aadl_tree::{Association, PropertyValue};
use hw_text::NoMemory;
use std::alloc::Global;

impl Property {
    /// Whether the property may have the value. What a reference leads to is not asked.
    pub fn fits(self, alloc: Global, value: &PropertyValue) -> Result<bool, NoMemory>
        ensures { IfOk result (λ fit. fit ≡ fits self value.now) }
    {
        Ok(match self {
            Property::DispatchProtocol => dispatch_of(value).is_some(),
            Property::Period | Property::FramePeriod => positive_time_of(value).is_some(),
            Property::ComputeExecutionTime => time_range_of(value).is_some(),
            Property::QueueSize => queue_size_of(value).is_some(),
            Property::OverflowHandlingProtocol => overflow_of(value).is_some(),
            Property::DequeueProtocol => dequeue_of(value).is_some(),
            Property::ActualProcessorBinding => reference_of(value).is_some(),
            Property::DataRepresentation => representation_of(value).is_some(),
            Property::Enumerators => enumerators_of(alloc, value)?.is_some(),
            Property::BaseType => classifier_of(value).is_some(),
            Property::Dimension => dimension_of(value).is_some(),
        })
    }

    /// Whether an association of the property has one value alone, which fits.
    pub fn suits(self, alloc: Global, association: &Association) -> Result<bool, NoMemory>
        ensures { IfOk result (λ suit. suit ≡ suits self association.now) }
    {
        match sole_value(association) {
            Some(value) => self.fits(alloc, value),
            None => Ok(false),
        }
    }
}

/// The value of an association that has one alone.
pub fn sole_value(association: &Association) -> Option<&PropertyValue>
    ensures { option_copied result ≡ sole_value association.now }
{
    if association.others.rows().is_empty() {
        Some(&association.first)
    } else {
        None
    }
}
