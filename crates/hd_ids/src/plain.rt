//! IDs by one index of them all.
ghost use Rattle.std.specs.Prelude.{◌≡◌, nat_eq, ◌<◌, ◌^◌, ◌==◌, ℕ, [], length, not, position, Some, slice_index, IfOk, OnOk, OnErr};
ghost use Rattle.std.specs.List.{IsDistinct};
ghost use Rattle.hd_ids.specs.Noted.{is_noted, noted};

use hd_hashers::IdHasher;
use indexmap::IndexSet;
use std::alloc::{AllocError, Global};
use std::marker::Model;

/// IDs by one index of them all: about 24 bytes for each, however far apart they lie.
pub(crate) struct PlainIds {
    set: IndexSet<u64, IdHasher>,
}

impl Drop for PlainIds {
    /// Drops the fields. A derived drop would be proved anew at each place that lets go of one.
    fn drop(self) {
        let Self { set } = self;
    }
}

impl Model for PlainIds {
    ghost use Rattle.std.specs.Prelude.{ℕ, List, nat_eq};
    ghost use Rattle.std.specs.List.{IsDistinct};

    ghost Value = { List ℕ };

    ghost view = { λ a. a.set.keys };

    ghost invariant = { λ a. IsDistinct nat_eq a.set.keys };
}

impl PlainIds {
    /// No IDs yet, with room for `room` of them.
    pub(crate) fn with_capacity(
        alloc: Global,
        room: usize,
        secret: u64,
    ) -> Result<PlainIds, AllocError>
        ensures { IfOk result (λ plain. plain ≡ []) }
    {
        let set = IndexSet::with_capacity_and_hasher(alloc, room, IdHasher::new(secret))?;
        Ok(PlainIds { set })
    }

    /// How many IDs there are, fewer than 2^60. No two are alike.
    pub(crate) fn len(&self) -> usize
        ensures len { result ≡ length self.now }
        ensures few { result < 2 ^ 60 }
        ensures distinct { IsDistinct nat_eq self.now }
    {
        self.set.as_slice().len()
    }

    /// The ID of a number.
    pub(crate) fn get(&self, number: usize) -> u64
        requires { number < length self.now }
        ensures { result ≡ slice_index self.now number }
    {
        self.set[number]
    }

    /// The number of an ID, if it was noted.
    pub(crate) fn index_of(&self, id: u64) -> Option<usize>
        ensures first { result ≡ position (λ x. id == x) self.now }
        ensures distinct { (o : ℕ) → o < length self.now → slice_index self.now o ≡ id → result ≡ Some o }
    {
        self.set.get_index_of(&id)
    }

    /// Notes an ID, and answers whether it is new. Out of memory, nothing is noted.
    pub(crate) fn note(&mut self, id: u64) -> Result<bool, AllocError>
        ensures noted { OnOk result (self.new ≡ noted self.old id) }
        ensures is_new { IfOk result (λ new. new ≡ not (is_noted self.old id)) }
        ensures err { OnErr result (self.new ≡ self.old) }
    {
        let new = self.set.insert(id)?;
        Ok(new)
    }
}
