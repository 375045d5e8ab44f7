//! A part's round in a search: its objects pass their strength on.
//!
//! If a reference gives an object of the part the strength that is being spread, that is accepted at once. If it gives less,
//! that is offered. If it gives an object of another part the strength that is being spread, that is offered too, once for each
//! such object, and its part takes it between rounds.
ghost use Rattle.std.specs.Prelude.{◌≡◌, ◌^◌, ◌<◌, Some, false, length, slice_get, IfNone, IfSome, OnOk};
ghost use Rattle.hd_terms.specs.Ranks.{IsPassedOn};
ghost use Rattle.hd_terms.specs.Paths.{Edge};
ghost use Rattle.hd_terms.specs.Dump.{SlotEntry, object_at};
ghost use Rattle.hd_strength.specs.Found.{seen};
ghost use Rattle.hd_strength.specs.Rows.{width, edge_at, IsTargetAt};
ghost use Rattle.hd_strength.specs.Parts.{IsOwn, IsKnown, IsGain, IsFit, IsAny, IsBelow, HasGoneOn, HasRelaxed, HasNoneQueued, IsSlotRelaxed, IsTakenOut, Keeps, found_at};
ghost use Rattle.hd_strength.specs.Removed.{IsRemovedBy};

use crate::buckets::Offer;
use crate::edited::Edited;
use crate::part::Part;
use hd_graph::Graph;
use hd_supports::PackedReached;
use hd_terms::{NoMemory, Strength};

/// What an object gains by a reference: the object, and the strength.
#[derive(Clone, Copy)]
pub struct Gain {
    pub target: u32,
    pub strength: Strength,
}

/// Keeps what an object of the part gains by the reference at an index of another object's slots. Its stamp is the one after the
/// given one. Where strengths alone are kept the slot isn't looked up.
#[inline(always)]
pub(crate) fn keep(graph: &Graph, part: &mut Part, source: u32, index: u32, gain: Gain, stamp: u64)
    requires source { source < length graph.now.objects }
    requires index { index < width graph.now source }
    requires own { IsOwn part.old gain.target }
    requires room { stamp < 2 ^ 32 }
    ensures kept { (s : SlotEntry) → slice_get (object_at graph.now source).slots index ≡ Some s →
        Keeps (seen part.old.found.whole) part.old part.new gain.strength source s.slot gain.target stamp }
    ensures queue { part.new.queue ≡ part.old.queue }
{
    part.count = stamp + 1;
    let place = gain.target - part.first;
    if part.found.is_whole() {
        let slot = graph.slot_name(source, index).slot;
        let reached = PackedReached::by_edge(gain.strength, source, slot, part.count);
        part.found.put(place, reached);
    } else {
        part.found.put_strength(place, gain.strength);
    }
}

/// What the reference at an index of an object's slots gives its target, if it has one that isn't known to be reached. The
/// strength is the object's.
#[inline(always)]
fn gain_at(
    edited: Edited<'_>,
    part: &Part,
    o: u32,
    index: u32,
    target: Option<u32>,
    strength: Strength,
) -> Option<Gain>
    requires removed { IsRemovedBy edited.graph.now edited.front.now edited.removed.now }
    requires object { o < length edited.graph.now.objects }
    requires index { index < width edited.graph.now o }
    requires target { IsTargetAt edited.graph.now o index target }
    ensures none { IfNone result ((e : Edge) → edge_at edited.entry.graph.now edited.entry.front.now o index ≡ Some e → IsKnown part.now e.target) }
    ensures some { IfSome result (λ gain. IsGain (edge_at edited.entry.graph.now edited.entry.front.now) part.now o index strength gain) }
{
    let target = target?;
    if part.knows(target) {
        return None;
    }
    let kind = edited.graph.slot_kind(o, index);
    if edited.removed.slot(edited.graph, o, index, kind) {
        return None;
    }
    Some(Gain {
        target,
        strength: strength.weaker(kind.strength()),
    })
}

/// Gives the target of the reference at an index what it gains. A target of this part that gains the strength of the object,
/// which is being spread, takes it at once. All else is offered.
#[inline(always)]
fn relax_edge(
    edited: Edited<'_>,
    part: &mut Part,
    o: u32,
    index: u32,
    target: Option<u32>,
    strength: Strength,
) -> Result<(), NoMemory>
    requires removed { IsRemovedBy edited.graph.now edited.front.now edited.removed.now }
    requires object { o < length edited.graph.now.objects }
    requires index { index < width edited.graph.now o }
    requires target { IsTargetAt edited.graph.now o index target }
    requires passes_on { IsPassedOn edited.graph.now.mode strength }
    requires room { part.old.count < 2 ^ 32 }
    ensures { OnOk result (IsSlotRelaxed edited.entry.graph.now.mode (edge_at edited.entry.graph.now edited.entry.front.now) part.old part.new strength o index) }
{
    let Some(gain) = gain_at(edited, part, o, index, target, strength) else {
        return Ok(());
    };
    if gain.strength.rank() == strength.rank() {
        if part.has(gain.target) {
            let count = part.count;
            keep(edited.graph, part, o, index, gain, count);
            part.queue.push(gain.target)?;
            return Ok(());
        }
        part.note_handed(gain.target);
    }
    part.buckets
        .push(gain.strength, Offer { source: o, index })?;
    Ok(())
}

/// Passes on the strength of an object that was queued.
#[inline(always)]
fn relax_edges(
    edited: Edited<'_>,
    part: &mut Part,
    o: u32,
    strength: Strength,
) -> Result<(), NoMemory>
    requires removed { IsRemovedBy edited.graph.now edited.front.now edited.removed.now }
    requires own { IsOwn part.old o }
    requires source { (found_at part.old o).strength ≡ strength }
    requires passes_on { IsPassedOn edited.graph.now.mode strength }
    requires fit { IsFit edited.graph.now strength part.old }
    ensures { OnOk result (HasGoneOn edited.entry.graph.now edited.entry.front.now strength (IsBelow o 0) IsAny part.old part.new) }
{
    let targets = edited.graph.targets(o);
    for index in 0..targets.len() {
        relax_edge(edited, part, o, index, targets.get(index), strength)?;
    }
    Ok(())
}

/// Takes out the object that passes its strength on next. Where all is kept of the objects it is the one that was queued
/// first, so that supports make short chains, and what the next ones will ask for is read ahead. Where only strengths are
/// asked for it is the one that was queued last: what an object refers to mostly lies near it in memory.
#[inline(always)]
fn take_next(graph: &Graph, part: &mut Part) -> Option<u32>
    ensures none { IfNone result (HasNoneQueued part.old part.new) }
    ensures some { IfSome result (λ o. IsTakenOut part.old part.new o) }
{
    let o = part.queue.take()?;
    if part.found.is_whole() {
        part.found.look_ahead(graph, part.queue.coming());
    }
    Some(o)
}

/// Takes out the object that passes its strength on next, and passes it on. The answer is whether there was one.
#[inline(always)]
fn relax_next(edited: Edited<'_>, part: &mut Part, strength: Strength) -> Result<bool, NoMemory>
    requires removed { IsRemovedBy edited.graph.now edited.front.now edited.removed.now }
    requires fit { IsFit edited.graph.now strength part.old }
    ensures { OnOk result (HasRelaxed edited.entry.graph.now edited.entry.front.now strength part.old part.new) }
{
    let Some(o) = take_next(edited.graph, part) else {
        return Ok(false);
    };
    relax_edges(edited, part, o, strength)?;
    Ok(true)
}

/// Passes on the strength of at most `most` objects that are queued. The answer is how many there were.
fn relax_objects(
    edited: Edited<'_>,
    part: &mut Part,
    strength: Strength,
    most: usize,
) -> Result<usize, NoMemory>
    requires removed { IsRemovedBy edited.graph.now edited.front.now edited.removed.now }
    requires some { 0 < most }
    requires fit { IsFit edited.graph.now strength part.old }
    ensures { OnOk result (HasRelaxed edited.entry.graph.now edited.entry.front.now strength part.old part.new) }
{
    for passed in 0..most {
        if !relax_next(edited, part, strength)? {
            return Ok(passed);
        }
    }
    Ok(most)
}

/// A part's round: objects that are queued pass their strength on. Where all is kept of the objects, these are the ones that are
/// queued now, so that supports make short chains. Where strengths alone are kept, they are at most `most`, and can be ones that
/// others reach in the round. The part notes how many there were, and whether memory ran out.
pub(crate) fn relax_round(edited: Edited<'_>, part: &mut Part, strength: Strength, most: usize)
    requires removed { IsRemovedBy edited.graph.now edited.front.now edited.removed.now }
    requires some { 0 < most }
    requires fit { IsFit edited.graph.now strength part.old }
    ensures { part.new.failed ≡ false → HasRelaxed edited.entry.graph.now edited.entry.front.now strength part.old part.new }
{
    let most = part.queue.round_len(most);
    match relax_objects(edited, part, strength, most) {
        Ok(passed) => {
            part.passed = passed;
            part.failed = false;
        }
        Err(NoMemory) => part.failed = true,
    }
}
