//! When the strengths of the objects of each page last changed.
ghost use Rattle.std.specs.Prelude.{◌≡◌, ◌+◌, ◌/◌, ◌↔◌, replicate, slice_set, IfOk, IsTrue, OnOk};
ghost use Rattle.hd_totals.specs.LastChanges.{AreChangedBy, IsUnchanged};

use hd_pages::Pages;
use hd_repair::Change;
use hd_terms::NoMemory;
use std::alloc::Global;
use std::marker::Model;

/// How many objects a page has.
pub const PAGE_OBJECTS: u32 = 1024;

/// Of each page of 1,024 objects, how many events the log had when the strength of one of them last changed: 0 where none has
/// since the opening. Versions share what is equal.
#[derive(Drop)]
pub struct LastChanges {
    events: Pages<u32>,
}

impl Model for LastChanges {
    ghost use Rattle.std.specs.Prelude.{ℕ, List};

    ghost Value = { List ℕ };

    ghost view = { λ l. l.events };
}

impl LastChanges {
    /// None of `objects` objects has changed.
    ///
    /// # Errors
    ///
    /// Memory ran out.
    pub fn none(alloc: Global, objects: u32) -> Result<LastChanges, NoMemory>
        ensures { IfOk result (λ l. l ≡ replicate (objects / 1024 + 1) 0) }
    {
        let pages = (objects / PAGE_OBJECTS) as usize + 1;
        let events = Pages::of_vec(alloc, vec![in alloc; 0u32; pages]?)?;
        Ok(LastChanges { events })
    }

    /// An equal version.
    ///
    /// # Errors
    ///
    /// Memory ran out.
    pub fn share(&self, alloc: Global) -> Result<LastChanges, NoMemory>
        ensures { IfOk result (λ l. l ≡ self.now) }
    {
        let events = self.events.share(alloc)?;
        Ok(LastChanges { events })
    }

    /// Whether the strengths of a page's objects are what they were when the log had `events` events. Nothing is known of a
    /// page past the last.
    pub fn is_unchanged(&self, page: u32, events: u32) -> bool
        ensures { IsTrue result ↔ IsUnchanged self.now page events }
    {
        page < self.events.len() && self.events.get(page) <= events
    }

    /// Says that a page has changed by the last of `events` events. Nothing is kept of a page past the last.
    fn touch(&mut self, page: u32, events: u32) -> Result<(), NoMemory>
        ensures { OnOk result (self.new ≡ slice_set self.old page events) }
    {
        if page < self.events.len() && self.events.get(page) != events {
            self.events.with(page, events)?;
        }
        Ok(())
    }

    /// Says of the pages of changed objects that they have changed by the last of `events` events.
    ///
    /// # Errors
    ///
    /// Memory ran out. What is kept may not be used further: some of the changes may be missing.
    pub fn apply(&mut self, changes: &[Change], events: u32) -> Result<(), NoMemory>
        ensures { OnOk result (AreChangedBy self.old changes.now events self.new) }
    {
        for change in changes {
            self.touch(change.object() / PAGE_OBJECTS, events)?;
        }
        Ok(())
    }
}
