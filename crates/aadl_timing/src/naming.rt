//! The names of domains.

ghost use Rattle.std.specs.Prelude.{◌≡◌, option_copied, codes, filter_map, IfOk};
ghost use Rattle.aadl_tree.specs.References.{parted};
ghost use Rattle.aadl_timing.specs.Naming.{name_at, domain_name, last_part};

use crate::instance::Instance;
use aadl_names::Held;
use aadl_tree::Subcomponent;
use hw_text::{Name, NoMemory, Rows, TextBuf};
use std::alloc::Global;

impl<'a> Instance<'a> {
    /// The names on the way to a domain, joined by `_`.
    pub fn domain_name(&self, alloc: Global, path: &[usize]) -> Result<TextBuf, NoMemory>
        ensures { IfOk result (λ name. name ≡ domain_name self.now.tables.now path.now) }
    {
        let names = self.names(alloc, path)?;
        joined(alloc, names.rows())
    }

    /// The names of the subcomponents on a way.
    fn names(&self, alloc: Global, path: &[usize]) -> Result<Rows<Held<'a, Name>>, NoMemory>
        ensures { IfOk result (λ names. names ≡ filter_map (name_at self.now.tables.now) path.now) }
    {
        let mut names = Rows::new(alloc);
        for &row in path {
            if let Some(name) = self.name_at(row) {
                names.push(Held::new(name))?;
            }
        }
        Ok(names)
    }

    fn name_at(&self, row: usize) -> Option<&'a Name>
        ensures { option_copied result ≡ name_at self.now.tables.now row }
    {
        Some(&self.part_at(row)?.name.name)
    }

    /// The subcomponent at the end of a path.
    pub fn last_part(&self, path: &[usize]) -> Option<&'a Subcomponent>
        ensures { option_copied result ≡ last_part self.now.tables.now path.now }
    {
        self.part_at(*path.last()?)
    }
}

/// The names with `_` between them.
fn joined(alloc: Global, names: &[Held<'_, Name>]) -> Result<TextBuf, NoMemory>
    ensures { IfOk result (λ text. text ≡ parted (codes "_") names.now) }
{
    let mut text = TextBuf::new(alloc);
    let Some((first, others)) = names.split_first() else {
        return Ok(text);
    };
    text.word(first.get().rows())?;
    for name in others {
        text.word(b"_")?;
        text.word(name.get().rows())?;
    }
    Ok(text)
}
