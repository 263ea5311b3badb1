//! Names that a domain may not have.

ghost use Rattle.std.specs.Prelude.{◌≡◌, [], take, None, codes, IfOk};
ghost use Rattle.std.specs.List.{list_any};
ghost use Rattle.std.specs.Str.{bytes_eq};
ghost use Rattle.aadl_names.specs.Offences.{earliest_from};
ghost use Rattle.aadl_domains.specs.Components.{domains_of};
ghost use Rattle.aadl_timing.specs.Naming.{is_taken, clash, clash_at, clashes_from};

use crate::instance::Instance;
use aadl_domains::{Path, Sought, listed};
use aadl_names::{earlier, named};
use aadl_tree::{Category, Subcomponent};
use hw_text::{Code, NoMemory, Refusal, Rows, TextBuf};
use std::alloc::Global;

/// How many domains are asked for their names: a model with more of them is refused for their number.
const ASKED: u32 = 60;

impl<'a> Instance<'a> {
    /// The first refusal of a domain that has the name of an earlier one, or that is a process of the
    /// name `types`.
    pub fn first_clash(&self, alloc: Global, root: usize) -> Result<Option<Refusal>, NoMemory>
        ensures { IfOk result (λ first. first ≡ earliest_from None (clashes_from self.now.tables.now [] (take 60 (domains_of self.now.tables.now self.now.resolved.now root)))) }
    {
        let found = listed(
            alloc,
            self.tables,
            self.resolved,
            Sought::Domain,
            root,
            ASKED,
        )?;
        self.clash_among(alloc, found.first.rows())
    }

    fn clash_among(&self, alloc: Global, paths: &[Path]) -> Result<Option<Refusal>, NoMemory>
        ensures { IfOk result (λ first. first ≡ earliest_from None (clashes_from self.now.tables.now [] paths.now)) }
    {
        let mut first = None;
        let mut seen = Rows::new(alloc);
        for path in paths {
            let offence = self.clash_at(alloc, seen.rows(), path.rows())?;
            first = earlier(first, offence);
            let name = self.domain_name(alloc, path.rows())?;
            seen.push(name)?;
        }
        Ok(first)
    }

    /// The refusal of a domain, behind domains of these names.
    fn clash_at(
        &self,
        alloc: Global,
        seen: &[TextBuf],
        path: &[usize],
    ) -> Result<Option<Refusal>, NoMemory>
        ensures { IfOk result (λ offence. offence ≡ clash_at self.now.tables.now seen.now path.now) }
    {
        let Some(part) = self.last_part(path) else {
            return Ok(None);
        };
        let name = self.domain_name(alloc, path)?;
        Ok(clash(seen, name, part))
    }
}

/// The refusal of a domain of this name, behind domains of these names.
fn clash(seen: &[TextBuf], name: TextBuf, part: &Subcomponent) -> Option<Refusal>
    ensures { result ≡ clash seen.now name part.now }
{
    if is_taken(seen, &name, part) {
        return Some(named(Code::ModelNameClash, part.name.place, name));
    }
    None
}

fn is_taken(seen: &[TextBuf], name: &TextBuf, part: &Subcomponent) -> bool
    ensures { result ≡ is_taken seen.now name.now part.now }
{
    is_among(seen, name)
        || (part.category == Category::Process && name.rows() == "types".as_bytes())
}

fn is_among(seen: &[TextBuf], name: &TextBuf) -> bool
    ensures { result ≡ list_any (bytes_eq name.now) seen.now }
{
    for other in seen {
        if name.rows() == other.rows() {
            return true;
        }
    }
    false
}
