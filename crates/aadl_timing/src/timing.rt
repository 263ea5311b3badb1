//! The timing of threads.

ghost use Rattle.std.specs.Prelude.{◌≡◌, option_copied, option_and_then, IfOk};
ghost use Rattle.aadl_values.specs.Columns.{dispatch_of};
ghost use Rattle.aadl_values.specs.Times.{positive_time_of, time_range_of};
ghost use Rattle.aadl_timing.specs.Timings.{counting_value, high_end, timing_of};

use aadl_names::Component;
use aadl_tree::PropertyValue;
use aadl_values::{
    Dispatch, Property, Spelled, dispatch_of, positive_time_of, sole_value, time_range_of,
};
use hw_text::NoMemory;
use std::alloc::Global;

/// When a component is dispatched, and how long a dispatch takes, in picoseconds.
#[derive(Clone, Copy, Debug, PartialEq, Eq)]
pub struct Timing {
    pub dispatch: Option<Dispatch>,
    pub period: Option<u64>,
    /// The high end of the execution time, which is 0 where nothing is said of it.
    pub upper: u64,
}

/// The timing of a component by the associations that count for it.
pub fn timing_of(alloc: Global, component: &Component<'_>) -> Result<Timing, NoMemory>
    ensures { IfOk result (λ timing. timing ≡ timing_of component.now) }
{
    let dispatch = counting_value(alloc, Property::DispatchProtocol, component)?;
    let period = counting_value(alloc, Property::Period, component)?;
    let execution = counting_value(alloc, Property::ComputeExecutionTime, component)?;
    Ok(Timing {
        dispatch: dispatch_in(dispatch),
        period: period_in(period),
        upper: high_end(execution),
    })
}

/// The value of the association that counts for a component.
pub fn counting_value<'a>(
    alloc: Global,
    property: Property,
    component: &Component<'a>,
) -> Result<Option<&'a PropertyValue>, NoMemory>
    ensures { IfOk result (λ value. option_copied value ≡ counting_value property component.now) }
{
    let found = component.counting(alloc, property.spelling().as_bytes())?;
    match found {
        Some(association) => Ok(sole_value(association)),
        None => Ok(None),
    }
}

fn dispatch_in(value: Option<&PropertyValue>) -> Option<Dispatch>
    ensures { result ≡ option_and_then dispatch_of (option_copied value.entry) }
{
    dispatch_of(value?)
}

pub fn period_in(value: Option<&PropertyValue>) -> Option<u64>
    ensures { result ≡ option_and_then positive_time_of (option_copied value.entry) }
{
    positive_time_of(value?)
}

fn high_end(value: Option<&PropertyValue>) -> u64
    ensures { result ≡ high_end (option_and_then time_range_of (option_copied value.entry)) }
{
    let Some(value) = value else {
        return 0;
    };
    match time_range_of(value) {
        Some(range) => range.high,
        None => 0,
    }
}
