//! The questions on texts, types, stores and sinks.

use crate::files::Disk;
use crate::{files, layouts, lists, names};
use case_files::{Answerer, Context, Devices, Question, Trouble};
use hw_text::{NoMemory, TextBuf};
use hw_types::Layout;
use std::alloc::Global;

/// Who answers, and what the questions of a case have made.
#[derive(Drop)]
pub struct Bases<'a> {
    disk: Disk<'a>,
    devices: Devices,
    /// The layout of the last type.
    layout: Option<Layout>,
}

impl<'a> Bases<'a> {
    pub fn new(alloc: Global, disk: Disk<'a>) -> Result<Self, NoMemory> {
        Ok(Bases {
            disk,
            devices: Devices::new(alloc)?,
            layout: None,
        })
    }
}

impl<'a> Answerer for Bases<'a> {
    fn begin(&mut self, alloc: Global) -> Result<(), NoMemory> {
        self.devices = Devices::new(alloc)?;
        self.layout = None;
        Ok(())
    }

    fn answer(
        &mut self,
        alloc: Global,
        _context: &Context,
        question: &Question,
        out: &mut TextBuf,
    ) -> Result<bool, Trouble> {
        Ok(
            self.devices.answer(alloc, question, out)?
                || files::answer(alloc, question, &mut self.disk, out)?
                || lists::answer(alloc, question, out)?
                || names::answer(alloc, question, out)?
                || layouts::answer(alloc, question, &mut self.layout, out)?,
        )
    }
}
