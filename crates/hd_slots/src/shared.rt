//! IDs that many slots have: each is looked up once for all of them.
ghost use Rattle.std.specs.Prelude.{◌≡◌, ◌<◌, ◌^◌, [], ◌∷◌, ◌++◌, ◌⊎◌, length, slice_index, IfSome};

use std::alloc::{AllocError, Global};
use std::marker::Model;

/// Under a key nothing is noted. No list has an index as great.
const NONE: u32 = 0xffff_ffff;

/// The most IDs that are noted, and the first number that is no key.
const MOST: usize = 0x4000_0000;

/// IDs that many slots have, each with a file offset where it lies. Under each key of a caller's there is the one that was noted
/// last.
pub(crate) struct SharedIds {
    ids: Vec<u64>,
    offsets: Vec<u32>,
    /// Under each key an index of both lists, or `NONE`.
    indexes: Vec<u32>,
}

impl Drop for SharedIds {
    /// Drops the fields. A derived drop would be proved anew at each place that lets go of one.
    fn drop(self) {
        let Self {
            ids,
            offsets,
            indexes,
        } = self;
    }
}

impl Model for SharedIds {
    ghost use Rattle.std.specs.Prelude.{◌≡◌, ◌≤◌, ◌^◌, length};
    ghost use Rattle.hd_slots.specs.Shared.{Noted};

    ghost Value = { Noted };

    ghost view = { λ a. record { ids = a.ids.items; offsets = a.offsets.items } };

    ghost invariant = { λ a. (length a.ids.items ≡ length a.offsets.items) × (length a.offsets.items ≤ 2 ^ 30) };
}

impl SharedIds {
    /// Nothing is noted.
    pub(crate) fn none(alloc: Global) -> SharedIds
        ensures { result ≡ record { ids = []; offsets = [] } }
    {
        SharedIds {
            ids: Vec::new(alloc),
            offsets: Vec::new(alloc),
            indexes: Vec::new(alloc),
        }
    }

    /// Where an ID stands, if it is the one that is noted under a key.
    #[inline(always)]
    pub(crate) fn index_of(&self, key: usize, id: u64) -> Option<u32>
        ensures there { IfSome result (λ index. index < length self.now.offsets) }
        ensures same { IfSome result (λ index. slice_index self.now.ids index ≡ id) }
        ensures small { IfSome result (λ index. index < 2 ^ 30) }
    {
        let index = *self.indexes.get(key)?;
        let there = *self.ids.get(index as usize)?;
        if there == id { Some(index) } else { None }
    }

    /// Notes an ID that lies at an offset under a key, unless there are too many already.
    pub(crate) fn note(&mut self, key: usize, id: u64, offset: u32) -> Result<(), AllocError>
        ensures { (self.new ≡ self.old) ⊎ (self.new ≡ record { ids = self.old.ids ++ id ∷ []; offsets = self.old.offsets ++ offset ∷ [] }) }
    {
        let index = self.offsets.len();
        if index >= MOST || key >= MOST {
            return Ok(());
        }
        if key >= self.indexes.len() {
            self.indexes.resize(key + 1, NONE)?;
        }
        self.ids.reserve(1)?;
        self.offsets.reserve(1)?;
        self.ids.push_reserved(id);
        self.offsets.push_reserved(offset);
        self.indexes[key] = index as u32;
        Ok(())
    }

    /// The offsets that were noted.
    pub(crate) fn into_offsets(self) -> Vec<u32>
        ensures { result.items ≡ self.offsets }
    {
        let Self {
            ids,
            offsets,
            indexes,
        } = self;
        drop(ids);
        drop(indexes);
        offsets
    }
}
