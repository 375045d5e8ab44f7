//! A part of the objects, those of numbers in a row, and how far a search among them has come.
ghost use Rattle.std.specs.Prelude.{◌≡◌, ◌-◌, true, false, OnOk};
ghost use Rattle.hd_strength.specs.Growing.{rank_at};
ghost use Rattle.hd_strength.specs.Parts.{IsKnown, IsNew, IsNoted, IsOwn, IsSameBut};

use crate::buckets::Buckets;
use crate::found::Found;
use crate::queue::Queue;
use hd_terms::NoMemory;
use std::alloc::Global;

/// How many objects of other parts a part remembers at most. Classes, to which most references to other parts lead, mostly stand
/// one behind the other, so up to this many of them are remembered side by side.
const CELLS: usize = 32_768;

/// A part of the objects, and how far a search among them has come. One thread at a time works on it.
///
/// Parts lie side by side in memory, so what is written with each object stands in the middle: two threads that write into one
/// line of the cache slow each other down.
pub(crate) struct Part {
    /// How many objects passed their strength on in the last round.
    pub(crate) passed: usize,
    /// Whether memory ran out in the last round.
    pub(crate) failed: bool,
    /// The number of its first object.
    pub(crate) first: u32,
    /// The last stamp that was given here. Stamps count from 1.
    pub(crate) count: u64,
    /// What is found of its objects, in the order of their numbers.
    pub(crate) found: Found,
    /// Its objects that are reached and have yet to pass their strength on.
    pub(crate) queue: Queue,
    /// Objects of other parts that were handed over to those: of all numbers that leave the same remainder by `CELLS` the last one.
    /// One that is forgotten is only handed over once more. Empty before the search begins, and where there is one part.
    pub(crate) handed: Vec<u32>,
    /// What references of its objects give, and no target has taken yet.
    pub(crate) buckets: Buckets,
}

impl Drop for Part {
    /// Drops the fields. A derived drop would be proved anew at each place that lets go of one.
    fn drop(self) {
        let Self {
            first: _,
            found,
            buckets,
            queue,
            handed,
            count: _,
            passed: _,
            failed: _,
        } = self;
    }
}

impl Part {
    /// A part with no object yet, of which this will be the first. The flag says whether all will be kept of its objects, or
    /// their strengths alone.
    pub(crate) fn new(alloc: Global, first: u32, whole: bool) -> Part
        ensures { IsNew first 0 whole result }
    {
        Part {
            first,
            found: Found::empty(alloc, whole),
            buckets: Buckets::new(alloc),
            queue: Queue::new(alloc, whole),
            handed: Vec::new(alloc),
            count: 0,
            passed: 0,
            failed: false,
        }
    }

    /// Gives a new part `len` objects, and notes whether memory ran out. Nothing reaches any of them.
    /// The flag says whether all will be kept of them, or their strengths alone.
    pub(crate) fn fill(&mut self, len: u32, whole: bool)
        requires { IsNew self.old.first 0 whole self.old }
        ensures { self.new.failed ≡ false → IsNew self.old.first len whole self.new }
    {
        let alloc = *self.handed.allocator();
        match Found::none(alloc, len, whole) {
            Ok(found) => {
                self.found = found;
                self.failed = false;
            }
            Err(NoMemory) => self.failed = true,
        }
    }

    /// Whether an object is one of the part's own.
    #[inline(always)]
    pub(crate) fn has(&self, o: u32) -> bool
        ensures yes { result ≡ true → IsOwn self.now o }
        ensures no { result ≡ false → IsOwn self.now o → ⊥ }
    {
        o >= self.first && ((o - self.first) as usize) < self.found.len()
    }

    /// Whether an object is known to be reached, or is remembered as handed over to the part that will reach it.
    #[inline(always)]
    pub(crate) fn knows(&self, o: u32) -> bool
        ensures yes { result ≡ true → IsKnown self.now o }
        ensures no { result ≡ false → IsOwn self.now o → rank_at self.now.found.list (o - self.now.first) ≡ 0 }
    {
        if self.has(o) {
            self.found.is_reached(o - self.first)
        } else {
            match self.handed.get(o as usize % CELLS) {
                Some(last) => *last == o,
                None => false,
            }
        }
    }

    /// Makes room for objects that are handed over, where there are other parts, since the dump has more objects, and no room yet.
    pub(crate) fn make_cells(&mut self, objects: u32) -> Result<(), NoMemory>
        ensures { OnOk result (IsSameBut self.old self.new × (self.new.queue ≡ self.old.queue)) }
    {
        if self.handed.is_empty() && self.found.len() < objects as usize {
            let alloc = *self.handed.allocator();
            let mut cells = vec![in alloc; 0; CELLS]?;
            // Each cell begins with a number that belongs into another one, so it is taken for no object: 0 belongs into the first.
            cells[0] = 1;
            self.handed = cells;
        }
        Ok(())
    }

    /// Remembers that an object of another part is handed over to that, instead of another one. Where there is no room nothing is
    /// remembered.
    #[inline(always)]
    pub(crate) fn note_handed(&mut self, o: u32)
        ensures { IsNoted self.old self.new o }
    {
        if let Some(last) = self.handed.get_mut(o as usize % CELLS) {
            *last = o;
        }
    }

    /// What is found of the part's objects.
    pub(crate) fn into_found(self) -> Found
        ensures { result ≡ self.found }
    {
        let Self {
            first: _,
            found,
            buckets,
            queue,
            handed,
            count: _,
            passed: _,
            failed: _,
        } = self;
        drop(buckets);
        drop(queue);
        drop(handed);
        found
    }
}
