//! A value that waits at several ports.

ghost use Rattle.std.specs.Prelude.{◌≡◌, IfOk};

use hw_text::NoMemory;
use hw_types::{Copied, Value};
use std::alloc::Global;
use std::marker::Model;
use std::rc::Rc;

/// A released value, which all queues where it waits share.
#[derive(Drop)]
pub struct Item {
    shared: Rc<Value>,
}

impl Model for Item {
    ghost use Rattle.std.specs.Prelude.{List, ℤ};

    ghost Value = { List ℤ };

    ghost view = { λ i. i.shared.value };
}

impl Item {
    /// An item of its own with the same value.
    pub fn of(alloc: Global, value: &Value) -> Result<Self, NoMemory>
        ensures { IfOk result (λ item. item ≡ value.now) }
    {
        Ok(Item {
            shared: Rc::new(alloc, value.copy()?)?,
        })
    }

    pub fn rows(&self) -> &[i128]
        ensures { result.now ≡ self.now }
    {
        self.shared.as_ref().rows()
    }
}

impl Copied for Item {
    fn copy(&self) -> Result<Self, NoMemory> {
        Ok(Item {
            shared: self.shared.clone()?,
        })
    }
}
