//! Sets of names, to see whether names differ.

ghost use Rattle.std.specs.Prelude.{◌≡◌, ◌++◌, ◌∷◌, [], List, ℕ, map, not, IfOk, IsTrue};
ghost use Rattle.hamr_cli.specs.Names.{is_among, are_new};

use hw_text::NoMemory;
use indexmap::IndexSet;
use std::alloc::Global;
use std::marker::Model;

/// Something that has a name.
pub trait Named {
    ghost name_of: { Self → List ℕ };

    fn name(&self) -> &[u8]
        ensures { result.now ≡ name_of self.now };
}

/// Names that differ, in the order in which they came.
#[derive(Drop)]
pub struct NameSet<'a> {
    seen: IndexSet<&'a [u8]>,
}

impl<'a> Model for NameSet<'a> {
    ghost use Rattle.std.specs.Prelude.{List, ℕ, map};

    ghost Value = { List (List ℕ) };

    ghost view = { λ s. map (λ name. name.now) s.seen.keys };
}

impl<'a> NameSet<'a> {
    pub fn new(alloc: Global) -> Self
        ensures { result ≡ [] }
    {
        NameSet {
            seen: IndexSet::new(alloc),
        }
    }

    /// Takes a name in, and says whether it is new.
    pub fn insert(&mut self, name: &'a [u8]) -> Result<bool, NoMemory>
        ensures exact { IfOk result (λ new. new ≡ not (is_among name.now self.old)) }
        ensures names { IfOk result (λ new. IsTrue new → self.new ≡ self.old ++ name.now ∷ []) }
    {
        Ok(self.seen.insert(name)?)
    }

    /// Takes names in, up to the first that is not new, and says whether all are new.
    pub fn insert_all<T: Named>(&mut self, items: &'a [T]) -> Result<bool, NoMemory>
        ensures exact { IfOk result (λ new. new ≡ are_new self.old (map T.name_of items.now)) }
        ensures names { IfOk result (λ new. IsTrue new → self.new ≡ self.old ++ map T.name_of items.now) }
    {
        for item in items {
            if !self.insert(item.name())? {
                return Ok(false);
            }
        }
        Ok(true)
    }
}
