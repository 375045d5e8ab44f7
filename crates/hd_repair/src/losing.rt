//! The repair after a loss: edges and roots stand no more.
ghost use Rattle.std.specs.Prelude.{◌≡◌, ◌≢◌, ◌+◌, ◌*◌, ◌^◌, ◌<◌, ◌≤◌, ℕ, List, length, All, Contains, sum_by, IfOk, OnOk};
ghost use Rattle.hd_terms.specs.declared.Support.TheVariants as supports;
ghost use Rattle.hd_terms.specs.EdgeRows.{degree};
ghost use Rattle.hd_terms.specs.Regions.{AreChanges, Holding, InLossRegion, WasSettledWith};
ghost use Rattle.hd_terms.specs.Settled.{reached_at, Reached, Settled};
ghost use Rattle.hd_terms.specs.Chains.{NoneTwice};
ghost use Rattle.hd_repair.specs.Changing.{AreChangesAmong};
ghost use Rattle.hd_repair.specs.Losing.{strengths_of};
ghost use Rattle.hd_repair.specs.Marking.{IfAsked, IfSettled, IsLarge};

use crate::best::offer_best;
use crate::change::Change;
use crate::marking::Marks;
use crate::rehanging::{Halfway, Limits, rehang_or_detach};
use crate::spreading::spread;
use crate::waiting::Region;
use hd_edges::{Edges, Held};
use hd_supports::Supports;
use hd_terms::NoMemory;
use std::alloc::Global;
use std::thread::Threads;

/// The changes of the objects of a region, from the strengths that they had to those that are kept.
fn changes_of(alloc: Global, region: &Region, kept: &Supports) -> Result<Vec<Change>, NoMemory>
    requires within { All (λ o. o < length kept.now) region.now.objects.items }
    requires strengths { length region.now.strengths.items ≡ length region.now.objects.items }
    ensures { IfOk result (λ v. (before : List Reached) → region.now.strengths.items ≡ strengths_of before region.now.objects.items → NoneTwice region.now.objects.items → AreChangesAmong before kept.now region.now.objects.items v.items) }
{
    let mut changes = Vec::new(alloc);
    for i in 0..region.objects.len() {
        let o = region.objects[i];
        let before = region.strengths[i];
        let after = kept.strength(o);
        if before.rank() != after.rank() {
            changes.push(Change::new(o, before, after))?;
        }
    }
    Ok(changes)
}

/// How a loss ended.
pub enum Lost {
    /// What is kept is settled again, and the strengths of these objects have changed.
    Settled(Vec<Change>),
    /// What is kept may not be used further. A search afresh keeps the bound on looks: `renew` takes what it finds in the region,
    /// and what was kept before the loss outside.
    Large(Marks),
}

/// Repairs what is kept after a loss, and tells whose strength has changed; or tells which objects are in its region, where that
/// is large.
///
/// What is lost stands no more, and while it did the supports were settled. The looks are at most twice the degree of the objects
/// whose stored chain used what is lost. Where more objects than `limits` allows lost their support, and objects still wait for
/// one, a search afresh is asked for, if its looks and those so far keep that bound; else they are taken apart by several threads.
///
/// # Errors
///
/// Memory ran out. What is kept may not be used further.
pub fn lose<R: Threads + Sync, E: Edges + Sync + Drop>(
    rt: &R,
    alloc: Global,
    edges: &mut E,
    kept: &mut Supports,
    lost: &[Held],
    limits: Limits,
) -> Result<Lost, NoMemory>
    requires count { length kept.old ≡ (E.rows edges.old).objects }
    requires room { (o : ℕ) → (reached_at kept.old o).stamp ≤ 2 ^ 47 }
    requires targets { All (λ (h : Holding). h.target < (E.rows edges.old).objects) lost.now }
    requires holders { All (λ (h : Holding). h.holder ≢ supports.Nothing) lost.now }
    requires settled { WasSettledWith (E.rows edges.old).standing lost.now kept.old }
    ensures same { E.rows edges.new ≡ E.rows edges.old }
    ensures count { length kept.new ≡ length kept.old }
    ensures settled { IfOk result (λ l. IfSettled l (λ v. Settled (E.rows edges.old).standing kept.new)) }
    ensures changes { IfOk result (λ l. IfSettled l (λ v. AreChanges kept.old kept.new v)) }
    ensures outside { IfOk result (λ l. IfSettled l (λ v. (o : ℕ) → (InLossRegion kept.old lost.now o → ⊥) → reached_at kept.new o ≡ reached_at kept.old o)) }
    ensures looks { IfOk result (λ l. IfSettled l (λ v.
        (region : List ℕ) → ((o : ℕ) → InLossRegion kept.old lost.now o → Contains region o)
        → E.look_count edges.new ≤ E.look_count edges.old + 2 * sum_by (degree (E.rows edges.old)) region
        )) }
    ensures stamps { IfOk result (λ l. IfSettled l (λ v. (m : ℕ) → ((o : ℕ) → (reached_at kept.old o).stamp ≤ m) → (o : ℕ) → (reached_at kept.new o).stamp ≤ m + (E.rows edges.old).objects)) }
    ensures large { IfOk result (λ l. IfAsked l (IsLarge (E.rows edges.old) kept.old lost.now (E.look_count edges.new) limits.search)) }
{
    kept.are_few();
    let half = rehang_or_detach(rt, alloc, edges, kept, lost, limits)?;
    match half {
        Halfway::Large(marks) => Ok(Lost::Large(marks)),
        Halfway::Done(losing) => {
            let offers = offer_best(rt, alloc, edges, kept, &losing.sought)?;
            let _rises = spread(rt, alloc, edges, kept, offers)?;
            let changes = changes_of(alloc, &losing.gone, kept)?;
            Ok(Lost::Settled(changes))
        }
    }
}
