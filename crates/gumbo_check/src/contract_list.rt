//! The contracts of all domains.

ghost use Rattle.std.specs.Prelude.{◌≡◌, ◌<◌, IfOk, Some, length, map, slice_get, slice_set};
ghost use Rattle.gumbo_check.specs.Checked.{empty_contract};

use crate::CheckedContract;
use arch_model::{Arch, PdId};
use hw_text::NoMemory;
use std::alloc::Global;
use std::marker::Model;

/// One contract for each domain, in the order of the domains.
#[derive(Debug, Drop)]
pub struct ContractList {
    contracts: Vec<CheckedContract>,
}

impl Model for ContractList {
    ghost use Rattle.std.specs.Prelude.{List};
    ghost use Rattle.gumbo_check.specs.Checked.{Checked};

    ghost Value = { List Checked };

    ghost view = { λ c. c.contracts.items };
}

impl ContractList {
    /// An empty contract for each domain.
    pub fn empty(alloc: Global, arch: &Arch) -> Result<ContractList, NoMemory>
        ensures { IfOk result (λ contracts. contracts ≡ map (λ pd. empty_contract) arch.now.pds) }
    {
        let mut contracts = Vec::new(alloc);
        for _pd in arch.pds() {
            contracts.push(CheckedContract::empty(alloc))?;
        }
        Ok(ContractList { contracts })
    }

    /// Replaces the contract of a domain, and no other.
    pub fn set(&mut self, pd: PdId, contract: CheckedContract)
        requires { pd.0 < length self.old }
        ensures { self.new ≡ slice_set self.old pd.0 contract }
    {
        self.contracts[pd.0 as usize] = contract;
    }

    /// The contract of a domain.
    pub fn of(&self, pd: PdId) -> &CheckedContract
        requires { pd.0 < length self.now }
        ensures { slice_get self.now pd.0 ≡ Some result.now }
    {
        &self.contracts[pd.0 as usize]
    }
}
