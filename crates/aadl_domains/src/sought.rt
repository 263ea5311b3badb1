//! What is looked for in an instance.

ghost use Rattle.std.specs.Prelude.{◌≡◌};
ghost use Rattle.aadl_domains.specs.Components.{is_sought};

use aadl_tree::Category;

/// Which components are listed.
#[derive(Clone, Copy, Debug, PartialEq, Eq)]
pub enum Sought {
    /// Processes and devices.
    Domain,
    Processor,
}

impl Sought {
    pub fn is(self, category: Category) -> bool
        ensures { result ≡ is_sought self category }
    {
        match self {
            Sought::Domain => category == Category::Process || category == Category::Device,
            Sought::Processor => category == Category::Processor,
        }
    }
}
