//! The best offer that what stands makes to an object.
ghost use denote.Param.Send.{IsSync, IsSend};
ghost use Rattle.std.specs.Prelude.{◌≡◌, ◌+◌, ◌<◌, ◌≤◌, ◌⊎◌, [], true, length, All, Contains, sum_by, IfOk, OnOk};
ghost use Rattle.hd_terms.specs.Ranks.{rank};
ghost use Rattle.hd_terms.specs.Settled.{reached_at, PassesOn};
ghost use Rattle.hd_terms.specs.declared.Mode.{Mode as OneMode};
ghost use Rattle.hd_edges.specs.Marks.{marked_edge};
ghost use Rattle.hd_repair.specs.declared.offers.Offer.{Offer as OneOffer};
ghost use Rattle.hd_repair.specs.Spreading.{offered_strength, ComesBefore, EdgeTo, IsBacked, IsBestSoFar, IsBetterBy, IsEdgeWithin, IsInOrder, IsSpreading, AreSupported, NoEdge, NoRoot, OffersBest, RootOn};
ghost use Rattle.hd_repair.specs.Losing.{sources_of};

use crate::hanging::is_before;
use crate::offering::Offered;
use crate::offers::{Offer, Offers};
use crate::threads::{THREADS, are_many, are_rows};
use hd_edges::{EdgeMark, Edges};
use hd_supports::Supports;
use hd_terms::{Mode, NoMemory, Strength, Support};
use std::alloc::Global;
use std::thread::{Threads, join};

/// Whether an object comes before the source of a support.
fn comes_before(kept: &Supports, o: u32, support: Support) -> bool
    requires { o < length kept.now }
    ensures { result ≡ true → ComesBefore kept.now o support }
{
    match support {
        Support::Edge { source, .. } => source < kept.len() && is_before(kept, o, source),
        _ => false,
    }
}

/// The better one of an offer and what an edge to its object gives. Of two that give the same it is the one whose source comes
/// first.
fn better_by_edge(mode: Mode, kept: &Supports, best: Offer, edge: EdgeMark) -> Offer
    requires { IsEdgeWithin (length kept.now) (marked_edge edge) }
    ensures least { rank best.strength ≤ rank result.strength }
    ensures covers { edge.stands ≡ true → PassesOn mode (reached_at kept.now edge.source) → rank (offered_strength kept.now (marked_edge edge).edge) ≤ rank result.strength }
    ensures which { (result ≡ best) ⊎ IsBetterBy mode kept.now (marked_edge edge) best result }
{
    let source = kept.strength(edge.source);
    let strength = source.weaker(edge.kind.strength());
    if !edge.stands {
        return best;
    }
    if source.rank() < mode.least_passed_on().rank() {
        return best;
    }
    if strength.rank() < best.strength.rank() {
        return best;
    }
    if strength.rank() == best.strength.rank() && !comes_before(kept, edge.source, best.support) {
        return best;
    }
    Offer {
        target: edge.target,
        strength,
        support: Support::Edge {
            source: edge.source,
            slot: edge.slot,
        },
    }
}

/// The best offer by the roots on an object, where what the object has is the first.
fn best_by_roots<E: Edges>(edges: &mut E, o: u32, kept: &Supports) -> Offer
    requires object { o < (E.rows edges.old).objects }
    requires count { length kept.now ≡ (E.rows edges.old).objects }
    requires backed { IsBacked (E.rows edges.old).standing kept.now o (reached_at kept.now o).strength (reached_at kept.now o).support }
    requires in_order { IsInOrder kept.now (reached_at kept.now o) (reached_at kept.now o).support }
    ensures same { E.rows edges.new ≡ E.rows edges.old }
    ensures looks { E.look_count edges.new ≤ E.look_count edges.old + length ((E.rows edges.old).roots o) }
    ensures best { IsBestSoFar (E.rows edges.old).standing kept.now o ((E.rows edges.old).roots o) [] result }
{
    let mut best = Offer {
        target: o,
        strength: kept.strength(o),
        support: kept.support(o),
    };
    for i in 0..edges.root_len(o) {
        let mark = edges.root(o, i);
        if mark.stands {
            best = Offer {
                target: o,
                strength: Strength::Strong,
                support: Support::Root(mark.number),
            };
        }
    }
    best
}

/// The best offer to an object, by its roots and by the edges to it. Each is looked at once.
pub(crate) fn best_offer<E: Edges>(edges: &mut E, o: u32, kept: &Supports) -> Offer
    requires object { o < (E.rows edges.old).objects }
    requires count { length kept.now ≡ (E.rows edges.old).objects }
    requires backed { IsBacked (E.rows edges.old).standing kept.now o (reached_at kept.now o).strength (reached_at kept.now o).support }
    requires in_order { IsInOrder kept.now (reached_at kept.now o) (reached_at kept.now o).support }
    ensures same { E.rows edges.new ≡ E.rows edges.old }
    ensures looks { E.look_count edges.new ≤ E.look_count edges.old + (length ((E.rows edges.old).roots o) + length ((E.rows edges.old).into o)) }
    ensures best { IsBestSoFar (E.rows edges.old).standing kept.now o ((E.rows edges.old).roots o) ((E.rows edges.old).into o) result }
{
    let mode = edges.mode();
    let mut best = best_by_roots(edges, o, kept);
    for i in 0..edges.into_len(o) {
        let edge = edges.into(o, i);
        best = better_by_edge(mode, kept, best, edge);
    }
    best
}

/// Makes the best offers to some objects.
fn offer_best_to_each<E: Edges>(
    edges: &mut E,
    kept: &Supports,
    objects: &[u32],
    offers: &mut Offers,
) -> Result<(), NoMemory>
    requires objects { All (λ o. o < (E.rows edges.old).objects) objects.now }
    requires count { length kept.now ≡ (E.rows edges.old).objects }
    requires supported { AreSupported (E.rows edges.old).standing kept.now }
    ensures same { E.rows edges.new ≡ E.rows edges.old }
    ensures looks { OnOk result (E.look_count edges.new ≤ E.look_count edges.old + sum_by (sources_of (E.rows edges.old)) objects.now) }
    ensures offers { OnOk result (OffersBest (E.rows edges.old) kept.now objects.now offers.old offers.new) }
{
    for o in objects {
        let offer = best_offer(edges, *o, kept);
        offers.push(offer)?;
    }
    Ok(())
}

/// The best offers to some objects, looked for by one thread.
fn best_to_each<E: Edges + Drop>(
    alloc: Global,
    edges: &E,
    kept: &Supports,
    objects: &[u32],
) -> Result<Offered, NoMemory>
    requires objects { All (λ o. o < (E.rows edges.now).objects) objects.now }
    requires count { length kept.now ≡ (E.rows edges.now).objects }
    requires supported { AreSupported (E.rows edges.now).standing kept.now }
    ensures looks { IfOk result (λ x. x.looks ≤ sum_by (sources_of (E.rows edges.now)) objects.now) }
    ensures offers { IfOk result (λ x. OffersBest (E.rows edges.now) kept.now objects.now [] x.offers) }
{
    let mut own = edges.unseen();
    let mut offers = Offers::new(alloc);
    offer_best_to_each(&mut own, kept, objects, &mut offers)?;
    Ok(Offered {
        offers,
        looks: own.looks(),
    })
}

/// The best offers to some objects, looked for by several threads.
#[cycle(best)]
fn best_by_threads<R: Threads + Sync, E: Edges + Sync + Drop>(
    rt: &R,
    alloc: Global,
    edges: &E,
    kept: &Supports,
    objects: &[u32],
    threads: usize,
) -> Result<Offered, NoMemory>
    requires objects { All (λ o. o < (E.rows edges.now).objects) objects.now }
    requires count { length kept.now ≡ (E.rows edges.now).objects }
    requires supported { AreSupported (E.rows edges.now).standing kept.now }
    ensures looks { IfOk result (λ x. x.looks ≤ sum_by (sources_of (E.rows edges.now)) objects.now) }
    ensures offers { IfOk result (λ x. OffersBest (E.rows edges.now) kept.now objects.now [] x.offers) }
{
    if threads <= 1 {
        let all = best_to_each(alloc, edges, kept, objects)?;
        return Ok(all);
    }
    let (own, others) = objects.split_at(objects.len() / threads);
    let left = threads - 1;
    let first = || -> Result<Offered, NoMemory>
        requires objects { All (λ o. o < (E.rows edges.now).objects) own.now }
        requires count { length kept.now ≡ (E.rows edges.now).objects }
        requires supported { AreSupported (E.rows edges.now).standing kept.now }
        ensures looks { IfOk result (λ x. x.looks ≤ sum_by (sources_of (E.rows edges.entry.now)) own.entry.now) }
        ensures offers { IfOk result (λ x. OffersBest (E.rows edges.entry.now) kept.entry.now own.entry.now [] x.offers) }
    { best_to_each(alloc, edges, kept, own) };
    let rest = || -> Result<Offered, NoMemory>
        requires bounds { IsSync R.row × IsSync E.row }
        requires objects { All (λ o. o < (E.rows edges.now).objects) others.now }
        requires count { length kept.now ≡ (E.rows edges.now).objects }
        requires supported { AreSupported (E.rows edges.now).standing kept.now }
        ensures looks { IfOk result (λ x. x.looks ≤ sum_by (sources_of (E.rows edges.entry.now)) others.entry.now) }
        ensures offers { IfOk result (λ x. OffersBest (E.rows edges.entry.now) kept.entry.now others.entry.now [] x.offers) }
    { best_by_threads(rt, alloc, edges, kept, others, left) };
    let (first, rest) = join(rt, first, rest);
    let all = first?.join(rest?)?;
    Ok(all)
}

/// The best offers to some objects, looked for by several threads where these are many.
pub(crate) fn offer_best<R: Threads + Sync, E: Edges + Sync + Drop>(
    rt: &R,
    alloc: Global,
    edges: &mut E,
    kept: &Supports,
    objects: &[u32],
) -> Result<Offers, NoMemory>
    requires objects { All (λ o. o < (E.rows edges.old).objects) objects.now }
    requires count { length kept.now ≡ (E.rows edges.old).objects }
    requires spreading { IsSpreading (E.rows edges.old).standing kept.now [] (RootOn objects.now) (EdgeTo objects.now) }
    ensures same { E.rows edges.new ≡ E.rows edges.old }
    ensures looks { OnOk result (E.look_count edges.new ≤ E.look_count edges.old + sum_by (sources_of (E.rows edges.old)) objects.now) }
    ensures targets { IfOk result (λ offers. (x : OneOffer) → Contains offers x → x.target < (E.rows edges.old).objects) }
    ensures spreading { IfOk result (λ offers. IsSpreading (E.rows edges.old).standing kept.now offers NoRoot NoEdge) }
{
    are_rows(edges);
    let threads = if are_many(objects) { THREADS } else { 1 };
    let found = best_by_threads(rt, alloc, edges, kept, objects, threads)?;
    edges.add_looks(found.looks);
    Ok(found.into_offers())
}
