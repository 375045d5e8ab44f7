//! Spreading offers: the greatest are accepted first, round by round, until none is left.
ghost use Rattle.std.specs.Prelude.{◌≡◌, ◌+◌, ◌-◌, ◌*◌, ◌^◌, ◌<◌, ◌≤◌, ◌⊎◌, ℕ, List, length, Contains, sum_by, OnOk, IfOk};
ghost use Rattle.hd_terms.specs.declared.Slot.{Slot};
ghost use Rattle.hd_terms.specs.declared.Support.TheVariants as supports;
ghost use Rattle.hd_terms.specs.Regions.{changed_objects};
ghost use Rattle.hd_terms.specs.Settled.{reached_at, Reached, Settled};
ghost use Rattle.hd_repair.specs.declared.offers.Offer.{Offer as OneOffer};
ghost use Rattle.hd_repair.specs.Spreading.{AreRises, GoesOn, IsAccepted, IsDeclined, IsInRound, IsRepairing, IsSpreading, IsStarted, NoEdge, NoRoot};

use crate::ahead::{Ahead, BATCH, read_object};
use crate::change::Change;
use crate::offering::offer_out;
use crate::offers::{Offer, Offers};
use crate::threads::are_rows;
use hd_edges::Edges;
use hd_supports::Supports;
use hd_terms::{NoMemory, Strength, Support};
use std::alloc::Global;
use std::thread::Threads;

/// The stamp of what a support holds: above that of its source.
fn stamp_by(kept: &Supports, support: Support) -> u64
    requires within { (source : ℕ) (slot : Slot) → support ≡ supports.Edge source slot → source < length kept.now }
    requires room { (o : ℕ) → (reached_at kept.now o).stamp < 2 ^ 48 - 1 }
    ensures later { (source : ℕ) (slot : Slot) → support ≡ supports.Edge source slot → (reached_at kept.now source).stamp < result }
    ensures bounded { (m : ℕ) → ((o : ℕ) → (reached_at kept.now o).stamp ≤ m) → result ≤ m + 1 }
    ensures small { result < 2 ^ 48 }
{
    match support {
        Support::Edge { source, .. } => kept.stamp(source) + 1,
        _ => 0,
    }
}

/// A round of spreading: what is offered, what has changed, and whose edges are still to be looked at.
pub(crate) struct Round {
    pub(crate) offers: Offers,
    pub(crate) changes: Vec<Change>,
    /// The objects that were given a strength in this round.
    pub(crate) front: Vec<u32>,
}

impl Drop for Round {
    /// Drops the fields. A derived drop would be proved anew at each place that lets go of one.
    fn drop(self) {
        let Self {
            offers,
            changes,
            front,
        } = self;
    }
}

impl Round {
    /// What has changed.
    fn into_changes(self) -> Vec<Change>
        ensures { result ≡ self.changes }
    {
        let Self {
            offers,
            changes,
            front,
        } = self;
        drop(offers);
        drop(front);
        changes
    }
}

/// Accepts an offer, if it gives more than its target has.
fn accept_offer(kept: &mut Supports, round: &mut Round, offer: Offer) -> Result<(), NoMemory>
    requires target { offer.target < length kept.old }
    requires within { (source : ℕ) (slot : Slot) → offer.support ≡ supports.Edge source slot → source < length kept.old }
    requires room { (o : ℕ) → (reached_at kept.old o).stamp < 2 ^ 48 - 1 }
    ensures count { length kept.new ≡ length kept.old }
    ensures ok { OnOk result (IsDeclined kept.old kept.new round.old round.new offer ⊎ IsAccepted kept.old kept.new round.old round.new offer) }
{
    let before = kept.strength(offer.target);
    if offer.strength.rank() <= before.rank() {
        return Ok(());
    }
    let stamp = stamp_by(kept, offer.support);
    kept.put(offer.target, offer.strength, offer.support, stamp)?;
    round
        .changes
        .push(Change::new(offer.target, before, offer.strength))?;
    round.front.push(offer.target)?;
    Ok(())
}

/// Reads what the next offers will ask for, once for each batch of them.
fn look_ahead<E: Edges>(edges: &E, kept: &Supports, offers: &Offers, ahead: &mut Ahead) {
    if !ahead.is_due() {
        return;
    }
    let mut sum: u32 = 0;
    for i in 0..BATCH {
        if let Some(target) = offers.coming(i) {
            sum = sum.wrapping_add(read_object(edges, kept, target));
        }
    }
    ahead.note(sum);
}

/// Accepts all offers of a strength, the greatest that is offered.
fn accept_all<E: Edges>(
    edges: &E,
    kept: &mut Supports,
    round: &mut Round,
    strength: Strength,
) -> Result<(), NoMemory>
    requires { IsStarted (E.rows edges.now) kept.old strength round.old }
    ensures count { length kept.new ≡ length kept.old }
    ensures in_round { OnOk result ((ks0 : List Reached) → IsInRound (E.rows edges.now) ks0 kept.old strength round.old → IsInRound (E.rows edges.now) ks0 kept.new strength round.new) }
    ensures goes_on { OnOk result (GoesOn kept.old kept.new round.old round.new) }
    ensures fewer { OnOk result ((x : OneOffer) → Contains round.old.offers x → x.strength ≡ strength → length round.new.offers < length round.old.offers) }
{
    let mut ahead = Ahead::none();
    while let Some(offer) = round.offers.pop(strength) {
        look_ahead(edges, kept, &round.offers, &mut ahead);
        accept_offer(kept, round, offer)?;
    }
    Ok(())
}

/// Offers what the objects of a round give along their edges, if they pass their strength on.
fn pass_on<R: Threads + Sync, E: Edges + Sync + Drop>(
    rt: &R,
    alloc: Global,
    edges: &mut E,
    kept: &Supports,
    round: &mut Round,
    strength: Strength,
) -> Result<(), NoMemory>
    requires { IsStarted (E.rows edges.old) kept.now strength round.old }
    ensures same { E.rows edges.new ≡ E.rows edges.old }
    ensures looks { OnOk result (E.look_count edges.new ≤ E.look_count edges.old + sum_by (λ o. length ((E.rows edges.old).out o)) round.old.front.items) }
    ensures changes { round.new.changes ≡ round.old.changes }
    ensures passed { OnOk result ((ks0 : List Reached) → IsInRound (E.rows edges.old) ks0 kept.now strength round.old → IsRepairing (E.rows edges.old) ks0 kept.now round.new.offers round.new.changes.items) }
    ensures few { OnOk result (length round.new.offers ≤ length round.old.offers + length round.old.front.items * (2 ^ 32 - 1)) }
{
    are_rows(edges);
    if strength.rank() < edges.mode().least_passed_on().rank() {
        return Ok(());
    }
    offer_out(rt, alloc, edges, kept, &round.front, &mut round.offers)?;
    Ok(())
}

/// Accepts offers, the greatest first, until none is left, and tells what has changed.
pub(crate) fn spread<R: Threads + Sync, E: Edges + Sync + Drop>(
    rt: &R,
    alloc: Global,
    edges: &mut E,
    kept: &mut Supports,
    offers: Offers,
) -> Result<Vec<Change>, NoMemory>
    requires count { length kept.old ≡ (E.rows edges.old).objects }
    requires targets { (x : OneOffer) → Contains offers x → x.target < (E.rows edges.old).objects }
    requires spreading { IsSpreading (E.rows edges.old).standing kept.old offers NoRoot NoEdge }
    requires room { (o : ℕ) → (reached_at kept.old o).stamp ≤ 2 ^ 47 + 2 ^ 32 }
    ensures same { E.rows edges.new ≡ E.rows edges.old }
    ensures count { length kept.new ≡ length kept.old }
    ensures settled { OnOk result (Settled (E.rows edges.old).standing kept.new) }
    ensures changes { IfOk result (λ v. AreRises kept.old kept.new v.items) }
    ensures looks { IfOk result (λ v. E.look_count edges.new ≤ E.look_count edges.old + sum_by (λ o. length ((E.rows edges.old).out o)) (changed_objects v.items)) }
{
    kept.are_few();
    let mut round = Round {
        offers,
        changes: Vec::new(alloc),
        front: Vec::new(alloc),
    };
    while let Some(strength) = round.offers.most() {
        round.front.clear();
        accept_all(edges, kept, &mut round, strength)?;
        pass_on(rt, alloc, edges, kept, &mut round, strength)?;
    }
    Ok(round.into_changes())
}
