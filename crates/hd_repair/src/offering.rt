//! What objects give along their edges is offered, by several threads where these are many.
ghost use denote.Param.Send.{IsSync, IsSend};
ghost use Rattle.std.specs.Prelude.{◌≡◌, ◌+◌, ◌^◌, ◌<◌, ◌≤◌, [], true, length, All, sum_by, IfNone, IfSome, OnOk, IfOk};
ghost use Rattle.hd_terms.specs.Ranks.{rank};
ghost use Rattle.hd_edges.specs.Marks.{marked_edge};
ghost use Rattle.hd_repair.specs.Losing.{targets_of};
ghost use Rattle.hd_repair.specs.Offering.{JoinsOffers};
ghost use Rattle.hd_repair.specs.Spreading.{rank_at, offered_strength, AddsOffers, IsEdgeWithin, IsOfferOf, OffersFrom};

use crate::offers::{Offer, Offers};
use crate::threads::{THREADS, are_many};
use hd_edges::{EdgeMark, Edges};
use hd_supports::Supports;
use hd_terms::{NoMemory, Support};
use std::alloc::Global;
use std::thread::{Threads, join};

/// Offers that were made, and how many looks that took.
pub(crate) struct Offered {
    pub(crate) offers: Offers,
    pub(crate) looks: u64,
}

impl Drop for Offered {
    /// Drops the fields. A derived drop would be proved anew at each place that lets go of one.
    fn drop(self) {
        let Self { offers, looks: _ } = self;
    }
}

impl Offered {
    /// What two threads offered.
    pub(crate) fn join(mut self, other: Offered) -> Result<Offered, NoMemory>
        ensures offers { IfOk result (λ x. JoinsOffers self.offers other.offers x.offers) }
        ensures looks { IfOk result (λ x. x.looks ≤ self.looks + other.looks) }
    {
        self.looks = self.looks.saturating_add(other.looks);
        self.offers.append(other.into_offers())?;
        Ok(self)
    }

    /// The offers.
    pub(crate) fn into_offers(self) -> Offers
        ensures { result ≡ self.offers }
    {
        let Self { offers, looks: _ } = self;
        offers
    }
}

/// What an edge from an object that passes its strength on would give its target, where that is more than the target has.
fn offer_of(kept: &Supports, edge: EdgeMark) -> Option<Offer>
    requires { IsEdgeWithin (length kept.now) (marked_edge edge) }
    ensures none { IfNone result (edge.stands ≡ true → rank (offered_strength kept.now (marked_edge edge).edge) ≤ rank_at kept.now edge.target) }
    ensures some { IfSome result (λ x. IsOfferOf kept.now (marked_edge edge) x) }
{
    let strength = kept.strength(edge.source).weaker(edge.kind.strength());
    if !edge.stands {
        return None;
    }
    if strength.rank() <= kept.strength(edge.target).rank() {
        return None;
    }
    Some(Offer {
        target: edge.target,
        strength,
        support: Support::Edge {
            source: edge.source,
            slot: edge.slot,
        },
    })
}

/// Offers what the edges of an object that passes its strength on give.
fn offer_out_of<E: Edges>(
    edges: &mut E,
    o: u32,
    kept: &Supports,
    offers: &mut Offers,
) -> Result<(), NoMemory>
    requires object { o < (E.rows edges.old).objects }
    requires count { length kept.now ≡ (E.rows edges.old).objects }
    ensures same { E.rows edges.new ≡ E.rows edges.old }
    ensures looks { E.look_count edges.new ≤ E.look_count edges.old + length ((E.rows edges.old).out o) }
    ensures few { length ((E.rows edges.old).out o) < 2 ^ 32 }
    ensures ok { OnOk result (AddsOffers (E.rows edges.old).standing kept.now o ((E.rows edges.old).out o) offers.old offers.new) }
{
    for i in 0..edges.out_len(o) {
        let edge = edges.out(o, i);
        if let Some(offer) = offer_of(kept, edge) {
            offers.push(offer)?;
        }
    }
    Ok(())
}

/// Offers what the edges of some objects that pass their strength on give.
fn offer_out_of_each<E: Edges>(
    edges: &mut E,
    kept: &Supports,
    objects: &[u32],
    offers: &mut Offers,
) -> Result<(), NoMemory>
    requires objects { All (λ o. o < (E.rows edges.old).objects) objects.now }
    requires count { length kept.now ≡ (E.rows edges.old).objects }
    ensures same { E.rows edges.new ≡ E.rows edges.old }
    ensures looks { OnOk result (E.look_count edges.new ≤ E.look_count edges.old + sum_by (targets_of (E.rows edges.old)) objects.now) }
    ensures offers { OnOk result (OffersFrom (E.rows edges.old) kept.now objects.now offers.old offers.new) }
{
    for o in objects {
        offer_out_of(edges, *o, kept, offers)?;
    }
    Ok(())
}

/// What the edges of some objects give, looked at by one thread.
fn out_of_each<E: Edges + Drop>(
    alloc: Global,
    edges: &E,
    kept: &Supports,
    objects: &[u32],
) -> Result<Offered, NoMemory>
    requires objects { All (λ o. o < (E.rows edges.now).objects) objects.now }
    requires count { length kept.now ≡ (E.rows edges.now).objects }
    ensures looks { IfOk result (λ x. x.looks ≤ sum_by (targets_of (E.rows edges.now)) objects.now) }
    ensures offers { IfOk result (λ x. OffersFrom (E.rows edges.now) kept.now objects.now [] x.offers) }
{
    let mut own = edges.unseen();
    let mut offers = Offers::new(alloc);
    offer_out_of_each(&mut own, kept, objects, &mut offers)?;
    Ok(Offered {
        offers,
        looks: own.looks(),
    })
}

/// What the edges of some objects give, looked at by several threads.
#[cycle(out)]
fn out_by_threads<R: Threads + Sync, E: Edges + Sync + Drop>(
    rt: &R,
    alloc: Global,
    edges: &E,
    kept: &Supports,
    objects: &[u32],
    threads: usize,
) -> Result<Offered, NoMemory>
    requires objects { All (λ o. o < (E.rows edges.now).objects) objects.now }
    requires count { length kept.now ≡ (E.rows edges.now).objects }
    ensures looks { IfOk result (λ x. x.looks ≤ sum_by (targets_of (E.rows edges.now)) objects.now) }
    ensures offers { IfOk result (λ x. OffersFrom (E.rows edges.now) kept.now objects.now [] x.offers) }
{
    if threads <= 1 {
        let all = out_of_each(alloc, edges, kept, objects)?;
        return Ok(all);
    }
    let (own, others) = objects.split_at(objects.len() / threads);
    let left = threads - 1;
    let first = || -> Result<Offered, NoMemory>
        requires objects { All (λ o. o < (E.rows edges.now).objects) own.now }
        requires count { length kept.now ≡ (E.rows edges.now).objects }
        ensures looks { IfOk result (λ x. x.looks ≤ sum_by (targets_of (E.rows edges.entry.now)) own.entry.now) }
        ensures offers { IfOk result (λ x. OffersFrom (E.rows edges.entry.now) kept.entry.now own.entry.now [] x.offers) }
    { out_of_each(alloc, edges, kept, own) };
    let rest = || -> Result<Offered, NoMemory>
        requires bounds { IsSync R.row × IsSync E.row }
        requires objects { All (λ o. o < (E.rows edges.now).objects) others.now }
        requires count { length kept.now ≡ (E.rows edges.now).objects }
        ensures looks { IfOk result (λ x. x.looks ≤ sum_by (targets_of (E.rows edges.entry.now)) others.entry.now) }
        ensures offers { IfOk result (λ x. OffersFrom (E.rows edges.entry.now) kept.entry.now others.entry.now [] x.offers) }
    { out_by_threads(rt, alloc, edges, kept, others, left) };
    let (first, rest) = join(rt, first, rest);
    let all = first?.join(rest?)?;
    Ok(all)
}

/// Offers what the edges of objects that pass their strength on give, by several threads where these are many.
pub(crate) fn offer_out<R: Threads + Sync, E: Edges + Sync + Drop>(
    rt: &R,
    alloc: Global,
    edges: &mut E,
    kept: &Supports,
    objects: &[u32],
    offers: &mut Offers,
) -> Result<(), NoMemory>
    requires objects { All (λ o. o < (E.rows edges.old).objects) objects.now }
    requires count { length kept.now ≡ (E.rows edges.old).objects }
    ensures same { E.rows edges.new ≡ E.rows edges.old }
    ensures looks { OnOk result (E.look_count edges.new ≤ E.look_count edges.old + sum_by (targets_of (E.rows edges.old)) objects.now) }
    ensures offers { OnOk result (OffersFrom (E.rows edges.old) kept.now objects.now offers.old offers.new) }
{
    if !are_many(objects) {
        offer_out_of_each(edges, kept, objects, offers)?;
        return Ok(());
    }
    let found = out_by_threads(rt, alloc, edges, kept, objects, THREADS)?;
    edges.add_looks(found.looks);
    offers.append(found.into_offers())?;
    Ok(())
}
