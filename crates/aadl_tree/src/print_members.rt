//! Printing the members of components.

ghost use Rattle.std.specs.Prelude.{◌≡◌, OnOk};
ghost use Rattle.std.specs.List.{flat_map};
ghost use Rattle.aadl_tree.specs.Layout.{written};
ghost use Rattle.aadl_tree.specs.Packages.{own_tokens, kind_tokens, direction_word, end_tokens, feature_tokens, subcomponent_tokens, connection_tokens};
ghost use Rattle.aadl_tree.specs.Values.{association_tokens};

use crate::association::Association;
use crate::connection::{Connection, ConnectionEnd};
use crate::feature::{Direction, Feature, PortKind};
use crate::mark::Mark;
use crate::page::Page;
use crate::print_names::print_maybe_behind_dot;
use crate::subcomponent::Subcomponent;
use crate::word::Word;
use hw_text::{NoMemory, Rows};

#[tactic(auto, using(crate::proofs::Writing::written_append), unfolding(crate::specs::Packages::feature_tokens))]
impl Feature {
    pub fn print(&self, page: &mut Page) -> Result<(), NoMemory>
        ensures { OnOk result (page.new ≡ written page.old (feature_tokens self.now)) }
    {
        page.name(&self.name.name)?;
        page.mark(Mark::Colon)?;
        page.word(self.direction.word())?;
        self.kind.print(page)?;
        print_own(page, &self.own)?;
        page.mark(Mark::Semicolon)
    }
}

#[tactic(auto, using(crate::proofs::Writing::written_append), unfolding(crate::specs::Packages::subcomponent_tokens))]
impl Subcomponent {
    pub fn print(&self, page: &mut Page) -> Result<(), NoMemory>
        ensures { OnOk result (page.new ≡ written page.old (subcomponent_tokens self.now)) }
    {
        page.name(&self.name.name)?;
        page.mark(Mark::Colon)?;
        page.word(self.category.word())?;
        self.class.print(page)?;
        print_own(page, &self.own)?;
        page.mark(Mark::Semicolon)
    }
}

#[tactic(auto, using(crate::proofs::Writing::written_append), unfolding(crate::specs::Packages::connection_tokens))]
impl Connection {
    pub fn print(&self, page: &mut Page) -> Result<(), NoMemory>
        ensures { OnOk result (page.new ≡ written page.old (connection_tokens self.now)) }
    {
        page.name(&self.name.name)?;
        page.mark(Mark::Colon)?;
        page.word(Word::Port)?;
        self.from.print(page)?;
        page.mark(Mark::Arrow)?;
        self.to.print(page)?;
        print_own(page, &self.own)?;
        page.mark(Mark::Semicolon)
    }
}

impl ConnectionEnd {
    fn print(&self, page: &mut Page) -> Result<(), NoMemory>
        ensures { OnOk result (page.new ≡ written page.old (end_tokens self.now)) }
    {
        page.name(&self.first.name)?;
        print_maybe_behind_dot(page, &self.port)
    }
}

impl Direction {
    fn word(self) -> Word
        ensures { result ≡ direction_word self }
    {
        match self {
            Direction::In => Word::In,
            Direction::Out => Word::Out,
        }
    }
}

#[tactic(auto, using(crate::proofs::Writing::written_append))]
impl PortKind {
    fn print(&self, page: &mut Page) -> Result<(), NoMemory>
        ensures { OnOk result (page.new ≡ written page.old (kind_tokens self.now)) }
    {
        match self {
            PortKind::Data(class) => {
                page.word(Word::Data)?;
                page.word(Word::Port)?;
                class.print(page)
            }
            PortKind::Event => {
                page.word(Word::Event)?;
                page.word(Word::Port)
            }
            PortKind::EventData(class) => {
                page.word(Word::Event)?;
                page.word(Word::Data)?;
                page.word(Word::Port)?;
                class.print(page)
            }
        }
    }
}

#[tactic(auto, using(crate::proofs::Writing::written_append))]
fn print_own(page: &mut Page, own: &Option<Rows<Association>>) -> Result<(), NoMemory>
    ensures { OnOk result (page.new ≡ written page.old (own_tokens own.now)) }
{
    let Some(own) = own else {
        return Ok(());
    };
    page.mark(Mark::OpenBrace)?;
    print_associations(page, own.rows())?;
    page.mark(Mark::CloseBrace)
}

#[tactic(auto, using(crate::proofs::Writing::written_append))]
pub fn print_associations(page: &mut Page, associations: &[Association]) -> Result<(), NoMemory>
    ensures { OnOk result (page.new ≡ written page.old (flat_map association_tokens associations.now)) }
{
    for association in associations {
        association.print(page)?;
    }
    Ok(())
}
