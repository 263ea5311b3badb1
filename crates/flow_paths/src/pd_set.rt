//! Sets of domains.

ghost use Rattle.std.specs.Prelude.{◌≡◌, ◌<◌, ℕ, true, false, IfOk, length, slice_set, count_by, not};
ghost use Rattle.flow_paths.specs.Sources.{has};

use arch_model::PdId;
use hw_text::NoMemory;
use std::alloc::Global;
use std::marker::Model;

/// A set of domains of one architecture, which contracts see as a list that says of each domain in
/// order whether it is a member.
#[derive(Debug, Drop)]
pub struct PdSet {
    members: Vec<bool>,
}

impl Model for PdSet {
    ghost use Rattle.std.specs.Prelude.{List, Bool};

    ghost Value = { List Bool };

    ghost view = { λ s. s.members.items };
}

impl PdSet {
    /// The set of none of so many domains.
    pub fn none(alloc: Global, domains: usize) -> Result<PdSet, NoMemory>
        ensures count { IfOk result (λ set. length set ≡ domains) }
        ensures empty { IfOk result (λ set. (pd : ℕ) → has set pd ≡ false) }
    {
        Ok(PdSet {
            members: Vec::from_elem(alloc, false, domains)?,
        })
    }

    /// Whether the domain is a member. It takes no memory.
    pub fn has(&self, pd: PdId) -> bool
        ensures { result ≡ has self.now pd.0 }
    {
        match self.members.get(pd.0 as usize) {
            Some(&is_member) => is_member,
            None => false,
        }
    }

    /// Makes a domain a member.
    pub fn add(&mut self, pd: PdId)
        requires { pd.0 < length self.now }
        ensures { self.new ≡ slice_set self.old pd.0 true }
    {
        self.members[pd.0 as usize] = true;
    }
}
