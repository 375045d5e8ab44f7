//! The repair after a gain: edges and roots stand that did not.
ghost use Rattle.std.specs.Prelude.{◌≡◌, ◌+◌, ◌^◌, ◌<◌, ◌≤◌, ℕ, List, [], length, All, Contains, sum_by, IfOk, OnOk};
ghost use Rattle.hd_terms.specs.EdgeRows.{degree};
ghost use Rattle.hd_terms.specs.Regions.{AreChanges, Holding, InGainRegion, WasSettledWithout};
ghost use Rattle.hd_terms.specs.Settled.{reached_at, Settled};
ghost use Rattle.hd_repair.specs.declared.offers.Offer.{Offer as OneOffer};
ghost use Rattle.hd_repair.specs.Spreading.{AreResupported, EdgeTo, IsSpreading, IsTaken, NoEdge, NoRoot, RootOn};

use crate::best::best_offer;
use crate::change::Change;
use crate::offers::{Offer, Offers};
use crate::spreading::spread;
use crate::targets::targets_of;
use hd_edges::{Edges, Held};
use hd_supports::Supports;
use hd_terms::NoMemory;
use std::alloc::Global;
use std::thread::Threads;

/// Takes an offer that gives its target no less than that has. One that gives more is added to the others. One that gives the
/// same becomes the target's support: strengths and stamps stay, and chains stay short.
fn take_offer(kept: &mut Supports, offers: &mut Offers, offer: Offer) -> Result<(), NoMemory>
    requires target { offer.target < length kept.old }
    ensures count { length kept.new ≡ length kept.old }
    ensures ok { OnOk result (IsTaken kept.old kept.new offers.old offers.new offer) }
{
    let o = offer.target;
    let strength = kept.strength(o);
    if offer.strength.rank() > strength.rank() {
        offers.push(offer)?;
        return Ok(());
    }
    let stamp = kept.stamp(o);
    kept.put(o, strength, offer.support, stamp)?;
    Ok(())
}

/// Gives each object a support whose source comes early, and answers the offers that give one more than it has.
fn support_or_offer_each<E: Edges>(
    alloc: Global,
    edges: &mut E,
    objects: &[u32],
    kept: &mut Supports,
) -> Result<Offers, NoMemory>
    requires objects { All (λ o. o < (E.rows edges.old).objects) objects.now }
    requires count { length kept.old ≡ (E.rows edges.old).objects }
    requires spreading { IsSpreading (E.rows edges.old).standing kept.old [] (RootOn objects.now) (EdgeTo objects.now) }
    ensures same { E.rows edges.new ≡ E.rows edges.old }
    ensures count { length kept.new ≡ length kept.old }
    ensures looks { OnOk result (E.look_count edges.new ≤ E.look_count edges.old + sum_by (λ o. length ((E.rows edges.old).roots o) + length ((E.rows edges.old).into o)) objects.now) }
    ensures targets { IfOk result (λ offers. (x : OneOffer) → Contains offers x → x.target < (E.rows edges.old).objects) }
    ensures resupported { OnOk result (AreResupported kept.old kept.new objects.now) }
    ensures spreading { IfOk result (λ offers. IsSpreading (E.rows edges.old).standing kept.new offers NoRoot NoEdge) }
{
    let mut offers = Offers::new(alloc);
    for o in objects {
        let offer = best_offer(edges, *o, kept);
        take_offer(kept, &mut offers, offer)?;
    }
    Ok(offers)
}

/// Repairs what is kept after a gain, and tells whose strength has changed.
///
/// What is gained stands now. The supports were settled before it stood. The looks are at most the degree of the targets
/// and of the objects whose strength changes.
///
/// # Errors
///
/// Memory ran out. What is kept may not be used further.
pub fn gain<R: Threads + Sync, E: Edges + Sync + Drop>(
    rt: &R,
    alloc: Global,
    edges: &mut E,
    kept: &mut Supports,
    gained: &[Held],
) -> Result<Vec<Change>, NoMemory>
    requires count { length kept.old ≡ (E.rows edges.old).objects }
    requires room { (o : ℕ) → (reached_at kept.old o).stamp ≤ 2 ^ 47 }
    requires targets { All (λ (h : Holding). h.target < (E.rows edges.old).objects) gained.now }
    requires settled { WasSettledWithout (E.rows edges.old).standing gained.now kept.old }
    ensures same { E.rows edges.new ≡ E.rows edges.old }
    ensures count { length kept.new ≡ length kept.old }
    ensures settled { OnOk result (Settled (E.rows edges.old).standing kept.new) }
    ensures changes { IfOk result (λ v. AreChanges kept.old kept.new v.items) }
    ensures outside { OnOk result ((o : ℕ) → (InGainRegion kept.old kept.new gained.now o → ⊥) → reached_at kept.new o ≡ reached_at kept.old o) }
    ensures looks { OnOk result (
        (region : List ℕ) → ((o : ℕ) → InGainRegion kept.old kept.new gained.now o → Contains region o)
        → E.look_count edges.new ≤ E.look_count edges.old + sum_by (degree (E.rows edges.old)) region
        ) }
    ensures stamps { OnOk result ((m : ℕ) → ((o : ℕ) → (reached_at kept.old o).stamp ≤ m) → (o : ℕ) → (reached_at kept.new o).stamp ≤ m + (E.rows edges.old).objects) }
{
    let targets = targets_of(alloc, gained)?;
    let offers = support_or_offer_each(alloc, edges, &targets, kept)?;
    let changes = spread(rt, alloc, edges, kept, offers)?;
    Ok(changes)
}
