//! IDs that are gathered for a list: all, or the least of them.
ghost use Rattle.std.specs.Prelude.{◌≡◌, ◌≤◌, ◌++◌, [], ◌∷◌, ℕ, List, Option as Maybe, IfOk, OnOk, IsTrue};
ghost use Rattle.hd_queries.specs.Gathered.{AreGathered, AreFirst, HaveSameIds};

use crate::least_ids::LeastIds;
use hd_terms::NoMemory;
use std::alloc::Global;

/// IDs that are gathered one after another.
pub(crate) enum Gathered {
    /// All of them.
    All(Vec<u64>),
    /// The least of them.
    Least(LeastIds),
}

impl Drop for Gathered {
    /// Drops the fields. A derived drop would be proved anew at each place that lets go of one.
    fn drop(self) {
        match self {
            Gathered::All(ids) => drop(ids),
            Gathered::Least(ids) => drop(ids),
        }
    }
}

impl Gathered {
    /// None yet. At most `most` will be kept; without a number all.
    pub(crate) fn new(alloc: Global, most: Option<u32>) -> Gathered
        ensures { AreGathered most [] result }
    {
        match most {
            Some(count) => Gathered::Least(LeastIds::new(alloc, count as usize)),
            None => Gathered::All(Vec::new(alloc)),
        }
    }

    /// Whether neither an ID nor any greater one would be kept.
    pub(crate) fn leaves_out(&self, id: u64) -> bool
        ensures { IsTrue result → (most : Maybe ℕ) (all : List ℕ) (x : ℕ) → id ≤ x → AreGathered most all self.now → AreGathered most (all ++ x ∷ []) self.now }
    {
        match self {
            Gathered::All(_) => false,
            Gathered::Least(ids) => ids.leaves_out(id),
        }
    }

    /// Puts in one more ID.
    pub(crate) fn put(&mut self, id: u64) -> Result<(), NoMemory>
        ensures { OnOk result ((most : Maybe ℕ) (all : List ℕ) → AreGathered most all self.old → AreGathered most (all ++ id ∷ []) self.new) }
    {
        match self {
            Gathered::All(ids) => ids.push(id)?,
            Gathered::Least(ids) => ids.put(id)?,
        }
        Ok(())
    }

    /// The IDs that were put in, each once and ascending: of these the first that are wanted.
    pub(crate) fn into_ids(self, alloc: Global) -> Result<Vec<u64>, NoMemory>
        ensures { IfOk result (λ v. (most : Maybe ℕ) (all : List ℕ) → AreGathered most all self → AreFirst most (HaveSameIds all) v.items) }
    {
        match self {
            Gathered::All(mut ids) => {
                // No two objects have one ID. Dropping doubles says so without an argument over all pairs.
                ids.sort_unstable();
                ids.dedup();
                Ok(ids)
            }
            Gathered::Least(ids) => {
                let ids = ids.into_ids(alloc)?;
                Ok(ids)
            }
        }
    }
}
