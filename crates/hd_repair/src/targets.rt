//! The objects that edges and roots lead to.
ghost use Rattle.std.specs.Prelude.{◌≡◌, ℕ, Contains, IfOk};
ghost use Rattle.hd_terms.specs.Chains.{NoneTwice};
ghost use Rattle.hd_terms.specs.Regions.{Holding};

use hd_edges::Held;
use hd_terms::NoMemory;
use indexmap::IndexSet;
use std::alloc::Global;

/// The targets of edges and roots, each once.
pub(crate) fn targets_of(alloc: Global, items: &[Held]) -> Result<Vec<u32>, NoMemory>
    ensures once { IfOk result (λ v. NoneTwice v.items) }
    ensures all { IfOk result (λ v. (h : Holding) → Contains items.now h → Contains v.items h.target) }
    ensures only { IfOk result (λ v. (o : ℕ) → Contains v.items o → (h : Holding) × Contains items.now h × (h.target ≡ o)) }
{
    let mut seen = IndexSet::new(alloc);
    let mut targets = Vec::new(alloc);
    for item in items {
        let target = item.target();
        let (_, is_new) = seen.insert_full(target)?;
        if is_new {
            targets.push(target)?;
        }
    }
    Ok(targets)
}
