//! Printing the sections of components.

ghost use Rattle.std.specs.Prelude.{◌≡◌, OnOk};
ghost use Rattle.std.specs.List.{flat_map};
ghost use Rattle.aadl_tree.specs.declared.word.Word.TheVariants as word;
ghost use Rattle.aadl_tree.specs.Canonical.{section_tokens};
ghost use Rattle.aadl_tree.specs.Layout.{written};
ghost use Rattle.aadl_tree.specs.Packages.{feature_tokens, subcomponent_tokens, connection_tokens};
ghost use Rattle.aadl_tree.specs.Values.{association_tokens};

use crate::association::Association;
use crate::connection::Connection;
use crate::feature::Feature;
use crate::page::Page;
use crate::print_members::print_associations;
use crate::subcomponent::Subcomponent;
use crate::word::Word;
use hw_text::NoMemory;

#[tactic(auto, using(crate::proofs::Writing::written_append))]
pub fn print_features(page: &mut Page, features: &[Feature]) -> Result<(), NoMemory>
    ensures { OnOk result (page.new ≡ written page.old (section_tokens word.Features feature_tokens features.now)) }
{
    if features.is_empty() {
        return Ok(());
    }
    page.word(Word::Features)?;
    for feature in features {
        feature.print(page)?;
    }
    Ok(())
}

#[tactic(auto, using(crate::proofs::Writing::written_append))]
pub fn print_subcomponents(page: &mut Page, subcomponents: &[Subcomponent]) -> Result<(), NoMemory>
    ensures { OnOk result (page.new ≡ written page.old (section_tokens word.Subcomponents subcomponent_tokens subcomponents.now)) }
{
    if subcomponents.is_empty() {
        return Ok(());
    }
    page.word(Word::Subcomponents)?;
    for subcomponent in subcomponents {
        subcomponent.print(page)?;
    }
    Ok(())
}

#[tactic(auto, using(crate::proofs::Writing::written_append))]
pub fn print_connections(page: &mut Page, connections: &[Connection]) -> Result<(), NoMemory>
    ensures { OnOk result (page.new ≡ written page.old (section_tokens word.Connections connection_tokens connections.now)) }
{
    if connections.is_empty() {
        return Ok(());
    }
    page.word(Word::Connections)?;
    for connection in connections {
        connection.print(page)?;
    }
    Ok(())
}

#[tactic(auto, using(crate::proofs::Writing::written_append))]
pub fn print_properties(page: &mut Page, associations: &[Association]) -> Result<(), NoMemory>
    ensures { OnOk result (page.new ≡ written page.old (section_tokens word.Properties association_tokens associations.now)) }
{
    if associations.is_empty() {
        return Ok(());
    }
    page.word(Word::Properties)?;
    print_associations(page, associations)
}
