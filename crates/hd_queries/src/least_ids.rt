//! The least of many IDs.
ghost use Rattle.std.specs.Prelude.{◌≡◌, ◌≤◌, [], ℕ, take, IfOk, OnOk, IsTrue};
ghost use Rattle.hd_queries.specs.LeastIds.{with_id};

use hd_terms::NoMemory;
use std::alloc::Global;
use std::collections::BTreeSet;
use std::marker::Model;

/// The least of the IDs that were put in, each once: at most `most` of them. They are all that takes memory.
pub(crate) struct LeastIds {
    most: usize,
    ids: BTreeSet<u64>,
}

impl Drop for LeastIds {
    /// Drops the fields. A derived drop would be proved anew at each place that lets go of one.
    fn drop(self) {
        let Self { most: _, ids } = self;
    }
}

impl Model for LeastIds {
    ghost use Rattle.std.specs.Prelude.{length, ◌≤◌};
    ghost use Rattle.hd_queries.specs.LeastIds.{Least};

    ghost Value = { Least };

    ghost view = { λ l. record { most = l.most; ids = l.ids.keys } };

    ghost invariant = { λ l. length l.ids.keys ≤ l.most };
}

impl LeastIds {
    /// No ID yet. At most `most` will be kept.
    pub(crate) fn new(alloc: Global, most: usize) -> LeastIds
        ensures { result ≡ record { most = most; ids = [] } }
    {
        let ids = BTreeSet::new(alloc);
        LeastIds { most, ids }
    }

    /// Whether neither an ID nor any greater one would be kept.
    pub(crate) fn leaves_out(&self, id: u64) -> bool
        ensures { IsTrue result → (x : ℕ) → id ≤ x → take self.now.most (with_id self.now.ids x) ≡ self.now.ids }
    {
        if self.ids.len() < self.most {
            return false;
        }
        match self.ids.last() {
            Some(last) => *last <= id,
            None => true,
        }
    }

    /// Puts in one more ID.
    pub(crate) fn put(&mut self, id: u64) -> Result<(), NoMemory>
        ensures { OnOk result (self.new ≡ record { most = self.old.most; ids = take self.old.most (with_id self.old.ids id) }) }
    {
        if self.leaves_out(id) {
            return Ok(());
        }
        let _is_new = self.ids.insert(id)?;
        if self.ids.len() > self.most {
            let _last = self.ids.pop_last();
        }
        Ok(())
    }

    /// The IDs that are kept, ascending.
    pub(crate) fn into_ids(self, alloc: Global) -> Result<Vec<u64>, NoMemory>
        ensures { IfOk result (λ v. v.items ≡ self.ids) }
    {
        let Self { most: _, ids } = self;
        let ids: Vec<u64> = ids.into_iter().collect(alloc)?;
        Ok(ids)
    }
}
