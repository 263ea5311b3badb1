//! Features, subcomponents and connections, of which types and implementations are made.

ghost use Rattle.std.specs.Prelude.{◌≡◌, ℕ, List};
ghost use Rattle.aadl_tree.specs.declared.association.Association.{Association as AssociationValue};
ghost use Rattle.aadl_tree.specs.declared.connection.Connection.{Connection as ConnectionValue};
ghost use Rattle.aadl_tree.specs.declared.feature.Feature.{Feature as FeatureValue};
ghost use Rattle.aadl_tree.specs.declared.names.Named.{Named as NamedValue};
ghost use Rattle.aadl_tree.specs.declared.subcomponent.Subcomponent.{Subcomponent as SubcomponentValue};
ghost use Rattle.aadl_names.specs.Parts.{in_braces};
ghost use Rattle.aadl_names.specs.declared.element.Element.{Element as ElementValue};
ghost use Rattle.aadl_names.specs.declared.element.Element.TheVariants as element;

use crate::element::Element;
use aadl_tree::{Association, Connection, Feature, Named, Subcomponent};
use hw_text::Rows;

/// A part of a type or an implementation.
pub trait Part {
    /// What stands in the braces behind it.
    ghost own_of: { Self → List AssociationValue };

    ghost name_of: { Self → NamedValue };

    /// The part of this number of the declaration of that number.
    ghost element_of: { ℕ → ℕ → ElementValue };

    fn own(&self) -> &[Association]
        ensures { result.now ≡ own_of self.now };

    fn name(&self) -> &Named
        ensures { result.now ≡ name_of self.now };

    fn element(owner: usize, number: usize) -> Element
        ensures { result ≡ element_of owner number };
}

impl Part for Feature {
    ghost own_of = { λ (f : FeatureValue). in_braces f.own };

    ghost name_of = { λ (f : FeatureValue). f.name };

    ghost element_of = { element.Feature };

    fn own(&self) -> &[Association] {
        rows_of(&self.own)
    }

    fn name(&self) -> &Named {
        &self.name
    }

    fn element(owner: usize, number: usize) -> Element {
        Element::Feature(owner, number)
    }
}

impl Part for Subcomponent {
    ghost own_of = { λ (s : SubcomponentValue). in_braces s.own };

    ghost name_of = { λ (s : SubcomponentValue). s.name };

    ghost element_of = { element.Subcomponent };

    fn own(&self) -> &[Association] {
        rows_of(&self.own)
    }

    fn name(&self) -> &Named {
        &self.name
    }

    fn element(owner: usize, number: usize) -> Element {
        Element::Subcomponent(owner, number)
    }
}

impl Part for Connection {
    ghost own_of = { λ (c : ConnectionValue). in_braces c.own };

    ghost name_of = { λ (c : ConnectionValue). c.name };

    ghost element_of = { element.Connection };

    fn own(&self) -> &[Association] {
        rows_of(&self.own)
    }

    fn name(&self) -> &Named {
        &self.name
    }

    fn element(owner: usize, number: usize) -> Element {
        Element::Connection(owner, number)
    }
}

/// The associations in braces, where there are braces.
fn rows_of(own: &Option<Rows<Association>>) -> &[Association]
    ensures { result.now ≡ in_braces own.now }
{
    match own {
        Some(all) => all.rows(),
        None => &[],
    }
}
