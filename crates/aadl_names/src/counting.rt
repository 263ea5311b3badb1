//! Which association of a property counts for a component or a feature.

ghost use Rattle.std.specs.Prelude.{◌≡◌, drop, option_copied, IfOk};
ghost use Rattle.aadl_names.specs.Counting.{step_names, outermost, applied, counts_for_component, counts_for_feature};

use crate::held::Held;
use crate::lasts::{braces_last, led_last, own_last};
use crate::part::Part;
use aadl_tree::{Association, ComponentType, Feature, Implementation, Subcomponent};
use hw_text::{Name, NoMemory, Rows};
use std::alloc::Global;

/// A step down from an implementation to a subcomponent of it.
#[derive(Drop)]
pub struct Step<'a> {
    pub within: Held<'a, Implementation>,
    pub name: Held<'a, Name>,
}

/// A component of an instance: the steps to it from the root, the last one to its subcomponent, and
/// what that is declared as.
#[derive(Drop)]
pub struct Component<'a> {
    pub steps: Rows<Step<'a>>,
    pub subcomponent: Held<'a, Subcomponent>,
    pub implementation: Option<Held<'a, Implementation>>,
    pub declared: Held<'a, ComponentType>,
}

impl<'a> Component<'a> {
    /// The association that counts for the component itself, of those that stand for it.
    pub fn counting(
        &self,
        alloc: Global,
        property: &[u8],
    ) -> Result<Option<&'a Association>, NoMemory>
        ensures { IfOk result (λ found. option_copied found ≡ counts_for_component property.now self.now) }
    {
        let names = step_names(alloc, self.steps.rows())?;
        if let Some(found) = outermost(property, self.steps.rows(), names.rows()) {
            return Ok(Some(found));
        }
        if let Some(found) = own_last(property, self.subcomponent.get().own()) {
            return Ok(Some(found));
        }
        if let Some(own) = &self.implementation {
            if let Some(found) = own_last(property, own.get().properties.rows()) {
                return Ok(Some(found));
            }
        }
        Ok(own_last(property, self.declared.get().properties.rows()))
    }

    /// The association that counts for a feature of the component.
    pub fn counting_at(
        &self,
        alloc: Global,
        property: &[u8],
        feature: &'a Feature,
    ) -> Result<Option<&'a Association>, NoMemory>
        ensures { IfOk result (λ found. option_copied found ≡ counts_for_feature property.now self.now feature.now) }
    {
        let mut names = step_names(alloc, self.steps.rows())?;
        names.push(Held::new(&feature.name.name))?;
        if let Some(found) = outermost(property, self.steps.rows(), names.rows()) {
            return Ok(Some(found));
        }
        let mut last = Rows::new(alloc);
        last.push(Held::new(&feature.name.name))?;
        if let Some(own) = &self.implementation {
            if let Some(found) = applied(property, last.rows(), own.get()) {
                return Ok(Some(found));
            }
        }
        if let Some(found) = own_last(property, feature.own()) {
            return Ok(Some(found));
        }
        Ok(led_last(property, last.rows(), self.declared.get().properties.rows()))
    }
}

fn step_names<'a>(alloc: Global, steps: &[Step<'a>]) -> Result<Rows<Held<'a, Name>>, NoMemory>
    ensures { IfOk result (λ names. names ≡ step_names steps.now) }
{
    let mut names = Rows::new(alloc);
    for step in steps {
        names.push(Held::new(step.name.get()))?;
    }
    Ok(names)
}

/// The last association of the outermost implementation that applies to what these names lead to.
fn outermost<'a>(
    property: &[u8],
    steps: &[Step<'a>],
    names: &[Held<'_, Name>],
) -> Option<&'a Association>
    ensures { option_copied result ≡ outermost property.now steps.now names.now }
{
    let mut rest = names;
    for step in steps {
        if let Some(found) = applied(property, rest, step.within.get()) {
            return Some(found);
        }
        rest = behind_first(rest);
    }
    None
}

#[tactic(auto, using(crate::proofs::LastThat::drop_least))]
fn behind_first<'n, 'a>(names: &'n [Held<'a, Name>]) -> &'n [Held<'a, Name>]
    ensures { result.now ≡ drop 1 names.now }
{
    let (_, others) = names.split_at(names.len().min(1));
    others
}

/// The last association in the text of an implementation that applies to what these names lead to.
fn applied<'a>(
    property: &[u8],
    names: &[Held<'_, Name>],
    within: &'a Implementation,
) -> Option<&'a Association>
    ensures { option_copied result ≡ applied property.now names.now within.now }
{
    let (first, others) = names.split_first()?;
    match led_last(property, names, within.properties.rows()) {
        Some(found) => Some(found),
        None => braces_last(property, first.get(), others, within.subcomponents.rows()),
    }
}
