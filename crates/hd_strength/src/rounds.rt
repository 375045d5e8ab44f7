//! A search by parts of the objects: Dijkstra's widest path with a bucket for each strength.
//!
//! Strengths are spread one after the other, the greatest first. A reference that gives its target the strength that is
//! being spread is accepted at once. One that gives less is offered, and waits in the bucket of what it gives. What is
//! settled in the end is the certificate of the search.
//!
//! Objects pass their strength on in rounds. In a round a part reaches its own objects alone: no two threads write the same
//! memory. What it finds of other parts' objects it offers, and between rounds one thread accepts these offers. A round has up to
//! four threads where many objects of several parts wait; else one thread takes the parts one after the other.
//!
//! The offers of a strength that are there when it begins are accepted first, in the order in which each part made them. Where
//! all is kept, a round takes the objects that wait: breadth first within one strength, so right after the opening supports make
//! short chains. No contract promises that. Where only strengths are asked for, no order shows, and the search is depth first:
//! most objects lie near those that refer to them.
ghost use Rattle.std.specs.Prelude.{◌≡◌, ◌+◌, ◌^◌, ◌<◌, length, slice_get, Some, true, false, IfOk, OnOk};
ghost use Rattle.hd_terms.specs.Ranks.{rank};
ghost use Rattle.hd_terms.specs.Dump.{SlotEntry, object_at};
ghost use Rattle.hd_terms.specs.declared.Strength.{Strength as OneStrength};
ghost use Rattle.hd_terms.specs.declared.Strength.TheVariants as strengths;
ghost use Rattle.hd_strength.specs.Found.{seen};
ghost use Rattle.hd_strength.specs.Rows.{width};
ghost use Rattle.hd_strength.specs.Parts.{AreFit, AreNoneOffered, AreQuiet, HasAccepted, HasComeTo, HasRelaxed, HaveEachRelaxed, HaveFound, HaveNotFailed, IsAnyQueued, IsAsFar, IsFit, IsHeldIn, IsHolder, IsMade, IsOwn, IsReachedOrNot, IsTried, to_do_in};
ghost use Rattle.hd_strength.specs.Removed.{IsRemovedBy};

use crate::buckets::Offer;
use crate::edited::Edited;
use crate::part::Part;
use crate::relaxing::{Gain, keep, relax_round};
use hd_terms::{NoMemory, Strength};
use hd_threads::for_each_mut;
use std::thread::Threads;

/// How many parts there are at most, and threads that work on them.
pub(crate) const PARTS: usize = 4;

/// From how many objects on that wait, or passed their strength on in the last round, a round has several threads.
const CROWD: usize = 4096;

/// How many objects of a part pass their strength on in a round of one thread, where strengths alone are kept.
const FEW: usize = 4096;

/// How many objects of a part pass their strength on in a round of several threads, where strengths alone are kept and some part
/// has none that waits.
const SOME: usize = 8192;

/// The same where each part has some.
const MANY: usize = 32_768;

/// A search as far as it has come: the parts of all objects, and whether all is kept of these, or their strengths alone.
#[derive(Drop)]
pub(crate) struct Search {
    pub(crate) parts: Vec<Part>,
    pub(crate) whole: bool,
}

/// The index of the part that has an object.
pub(crate) fn holder(parts: &[Part], o: u32) -> usize
    requires { IsHeldIn parts.now o }
    ensures { IsHolder parts.now o result }
{
    for k in 0..parts.len() {
        if parts[k].has(o) {
            return k;
        }
    }
    unreachable!()
}

/// Reaches an object of a part by an offer, unless it is reached already. Its stamp is the one after the given one. It is queued
/// if it passes its strength on.
fn reach(
    edited: Edited<'_>,
    part: &mut Part,
    offer: Offer,
    gain: Gain,
    stamp: u64,
) -> Result<(), NoMemory>
    requires source { offer.source < length edited.graph.now.objects }
    requires index { offer.index < width edited.graph.now offer.source }
    requires own { IsOwn part.old gain.target }
    requires room { stamp < 2 ^ 32 }
    ensures { OnOk result ((s : SlotEntry) → slice_get (object_at edited.entry.graph.now offer.source).slots offer.index ≡ Some s →
        IsReachedOrNot (seen part.old.found.whole) edited.entry.graph.now.mode part.old part.new gain.strength offer.source s.slot gain.target stamp) }
{
    if part.found.is_reached(gain.target - part.first) {
        return Ok(());
    }
    keep(edited.graph, part, offer.source, offer.index, gain, stamp);
    if gain.strength.rank() >= edited.graph.mode().least_passed_on().rank() {
        part.queue.push(gain.target)?;
    }
    Ok(())
}

/// Accepts an offer of a strength, if nothing reaches its target yet. The stamp is the last one of the part that made it.
fn accept_offer(
    edited: Edited<'_>,
    search: &mut Search,
    strength: Strength,
    offer: Offer,
    stamp: u64,
) -> Result<(), NoMemory>
    requires searching { HasComeTo edited.graph.now edited.front.now strength search.old }
    requires made { IsMade search.old.parts.items strength offer stamp }
    ensures { OnOk result (IsTried edited.entry.graph.now edited.entry.front.now strength offer search.old search.new) }
{
    let Some(target) = edited.graph.targets(offer.source).get(offer.index) else {
        return Ok(());
    };
    let k = holder(&search.parts, target);
    let stamp = stamp.max(search.parts[k].count);
    let gain = Gain { target, strength };
    reach(edited, &mut search.parts[k], offer, gain, stamp)?;
    Ok(())
}

/// Accepts all offers of a strength that a part has, in the order in which they were made.
fn accept_offers_of(
    edited: Edited<'_>,
    search: &mut Search,
    k: usize,
    strength: Strength,
) -> Result<(), NoMemory>
    requires part { k < length search.old.parts.items }
    requires searching { HasComeTo edited.graph.now edited.front.now strength search.old }
    requires none { AreNoneOffered search.old.parts.items strength k }
    ensures searching { OnOk result (HasComeTo edited.entry.graph.now edited.entry.front.now strength search.new) }
    ensures none { OnOk result (AreNoneOffered search.new.parts.items strength (k + 1)) }
    ensures same { OnOk result (IsAsFar search.old search.new) }
{
    while let Some(offer) = search.parts[k].buckets.first(strength) {
        let stamp = search.parts[k].count;
        accept_offer(edited, search, strength, offer, stamp)?;
        search.parts[k].buckets.pop(strength);
    }
    Ok(())
}

/// Accepts all offers of a strength, part by part.
fn accept_offers(
    edited: Edited<'_>,
    search: &mut Search,
    strength: Strength,
) -> Result<(), NoMemory>
    requires searching { HasComeTo edited.graph.now edited.front.now strength search.old }
    ensures searching { OnOk result (HasAccepted edited.entry.graph.now edited.entry.front.now strength search.new) }
    ensures same { OnOk result (IsAsFar search.old search.new) }
{
    for k in 0..search.parts.len() {
        accept_offers_of(edited, search, k, strength)?;
    }
    Ok(())
}

/// Whether any part has objects that wait to pass their strength on.
fn is_any_queued(parts: &[Part]) -> bool
    ensures yes { result ≡ true → IsAnyQueued parts.now }
    ensures no { result ≡ false → AreQuiet parts.now }
{
    for k in 0..parts.len() {
        if parts[k].queue.len() > 0 {
            return true;
        }
    }
    false
}

/// How many threads a round has, and how many objects of a part pass their strength on in it at most, where strengths alone are
/// kept.
///
/// One thread is quicker where few objects wait and few passed their strength on in the last round, or where objects of one part
/// alone wait. Where some parts have nothing to do, a round is short: what others find of theirs is offered at its end.
fn round_size(parts: &[Part]) -> (usize, usize)
    ensures { (0 < result.0) × (0 < result.1) }
{
    let mut busy: usize = 0;
    let mut waiting: usize = 0;
    let mut passed: usize = 0;
    for part in parts {
        if part.queue.len() > 0 {
            busy = busy.saturating_add(1);
        }
        waiting = waiting.saturating_add(part.queue.len());
        passed = passed.saturating_add(part.passed);
    }
    if busy <= 1 || waiting.max(passed) < CROWD {
        return (1, FEW);
    }
    if busy < parts.len() {
        return (PARTS, SOME);
    }
    (PARTS, MANY)
}

/// Whether memory ran out in any part.
pub(crate) fn has_failed(parts: &[Part]) -> bool
    ensures { result ≡ false → HaveNotFailed parts.now }
{
    for k in 0..parts.len() {
        if parts[k].failed {
            return true;
        }
    }
    false
}

/// Runs a round of each part, in at most `threads` threads.
fn relax_parts<R: Threads + Sync>(
    rt: &R,
    edited: Edited<'_>,
    parts: &mut [Part],
    strength: Strength,
    threads: usize,
    most: usize,
)
    requires removed { IsRemovedBy edited.graph.now edited.front.now edited.removed.now }
    requires fit { AreFit edited.graph.now strength parts.old }
    requires threads { 0 < threads }
    requires some { 0 < most }
    ensures count { length parts.new ≡ length parts.old }
    ensures each { HaveEachRelaxed edited.entry.graph.now edited.entry.front.now strength parts.old parts.new }
{
    for_each_mut(
        rt,
        parts,
        threads,
        &|_: usize, part: &mut Part|
            requires { IsRemovedBy edited.graph.now edited.front.now edited.removed.now × IsFit edited.graph.now strength part.now × (0 < most) }
            ensures { part.exit.now.failed ≡ false → HasRelaxed edited.entry.graph.now edited.entry.front.now strength part.entry.now part.exit.now }
        { relax_round(edited, part, strength, most) },
    );
}

/// A round: each part passes on the strength of objects that are queued, with several threads where that is worth their while.
fn pass_on<R: Threads + Sync>(
    rt: &R,
    edited: Edited<'_>,
    search: &mut Search,
    strength: Strength,
) -> Result<(), NoMemory>
    requires removed { IsRemovedBy edited.graph.now edited.front.now edited.removed.now }
    requires searching { HasComeTo edited.graph.now edited.front.now strength search.old }
    ensures searching { OnOk result (HasComeTo edited.entry.graph.now edited.entry.front.now strength search.new) }
    ensures same { OnOk result (IsAsFar search.old search.new) }
    ensures less { OnOk result (IsAnyQueued search.old.parts.items → to_do_in search.new.parts.items < to_do_in search.old.parts.items) }
{
    let (threads, most) = round_size(&search.parts);
    relax_parts(rt, edited, &mut search.parts, strength, threads, most);
    if has_failed(&search.parts) {
        return Err(NoMemory);
    }
    Ok(())
}

/// Passes on the strength of all objects that are queued, and of those that are queued in turn.
fn spread_objects<R: Threads + Sync>(
    rt: &R,
    edited: Edited<'_>,
    search: &mut Search,
    strength: Strength,
) -> Result<(), NoMemory>
    requires removed { IsRemovedBy edited.graph.now edited.front.now edited.removed.now }
    requires searching { HasAccepted edited.graph.now edited.front.now strength search.old }
    ensures searching { OnOk result (HasAccepted edited.entry.graph.now edited.entry.front.now strength search.new) }
    ensures whole { OnOk result (search.new.whole ≡ search.old.whole) }
    ensures all { OnOk result (AreQuiet search.new.parts.items) }
{
    while is_any_queued(&search.parts) {
        pass_on(rt, edited, search, strength)?;
        accept_offers(edited, search, strength)?;
    }
    Ok(())
}

/// Spreads a strength: accepts what is offered of it, and passes it on.
fn spread_strength<R: Threads + Sync>(
    rt: &R,
    edited: Edited<'_>,
    search: &mut Search,
    strength: Strength,
) -> Result<(), NoMemory>
    requires removed { IsRemovedBy edited.graph.now edited.front.now edited.removed.now }
    requires searching { HasComeTo edited.graph.now edited.front.now strength search.old }
    ensures searching { OnOk result ((next : OneStrength) → rank strength ≡ rank next + 1 → HasComeTo edited.entry.graph.now edited.entry.front.now next search.new) }
    ensures whole { OnOk result (search.new.whole ≡ search.old.whole) }
{
    accept_offers(edited, search, strength)?;
    spread_objects(rt, edited, search, strength)?;
    Ok(())
}

/// Spreads all strengths, the greatest first.
pub(crate) fn spread<R: Threads + Sync>(
    rt: &R,
    edited: Edited<'_>,
    mut search: Search,
) -> Result<Search, NoMemory>
    requires removed { IsRemovedBy edited.graph.now edited.front.now edited.removed.now }
    requires searching { HasComeTo edited.graph.now edited.front.now strengths.Strong search }
    ensures { IfOk result (λ found. HaveFound edited.entry.graph.now edited.entry.front.now search.whole found.parts.items) }
{
    spread_strength(rt, edited, &mut search, Strength::Strong)?;
    spread_strength(rt, edited, &mut search, Strength::Soft)?;
    spread_strength(rt, edited, &mut search, Strength::Weak)?;
    spread_strength(rt, edited, &mut search, Strength::Final)?;
    spread_strength(rt, edited, &mut search, Strength::Phantom)?;
    Ok(search)
}
