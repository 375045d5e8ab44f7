//! The beginning of a search: the parts of the objects, and what roots hold.
ghost use Rattle.std.specs.Prelude.{◌≡◌, ◌+◌, ◌-◌, ◌^◌, ◌<◌, ◌≤◌, min, false, [], length, IfOk, OnOk};
ghost use Rattle.hd_terms.specs.declared.Strength.TheVariants as strengths;
ghost use Rattle.hd_strength.specs.Rows.{root_count};
ghost use Rattle.hd_strength.specs.Parts.{AreBlank, AreFilled, AreHolding, AreReady, HasComeTo, HasQueued, HaveEachQueued, IsHeldBy, IsHeldIn, IsNew, IsReady};
ghost use Rattle.hd_strength.specs.Removed.{IsRemovedBy};

use crate::edited::{Edited, added_object, root_object};
use crate::part::Part;
use crate::rounds::{PARTS, Search, has_failed, holder};
use hd_supports::{GROUP, PackedReached};
use hd_terms::NoMemory;
use hd_threads::for_each_mut;
use std::alloc::Global;
use std::thread::Threads;

/// How many objects a part has at least, but for the last one, where strengths alone are asked for. With fewer, threads would take
/// longer to begin than they save.
const LEAST: u32 = 65_536;

/// How many of `objects` objects each part has, but for the last one. The flag says whether all will be kept of them. Then parts
/// end where a group of pages ends, so that pages are put one behind the other with no copy.
fn part_len(objects: u32, whole: bool) -> u32
    ensures { 0 < result }
{
    let parts = PARTS as u32;
    if whole {
        objects.div_ceil(parts * GROUP as u32).max(1) * GROUP as u32
    } else {
        objects.div_ceil(parts).max(LEAST)
    }
}

/// Parts for `objects` objects, one behind the other, that have no room for these yet. Each will have `len` of them, and the last
/// one those that are left. The flag says whether all will be kept of the objects, or their strengths alone.
fn blank_parts(alloc: Global, objects: u32, len: u32, whole: bool) -> Result<Vec<Part>, NoMemory>
    requires { 0 < len }
    ensures { IfOk result (λ parts. AreBlank len objects whole parts.items objects) }
{
    let mut parts = Vec::new(alloc);
    let mut first = 0;
    while first < objects {
        parts.push(Part::new(alloc, first, whole))?;
        first += len.min(objects - first);
    }
    Ok(parts)
}

/// Makes room in each part for its objects, in a thread for each. It has `len` of them, or those that are left.
fn fill_parts<R: Threads + Sync>(rt: &R, parts: &mut [Part], len: u32, objects: u32, whole: bool)
    requires { AreBlank len objects whole parts.old objects }
    ensures count { length parts.new ≡ length parts.old }
    ensures each { AreFilled len objects whole parts.old parts.new }
{
    for_each_mut(
        rt,
        parts,
        PARTS,
        &|_: usize, part: &mut Part|
            requires { IsNew part.now.first 0 whole part.now × (part.now.first ≤ objects) }
            ensures { part.exit.now.failed ≡ false → IsNew part.entry.now.first (min len (objects - part.entry.now.first)) whole part.exit.now }
        { part.fill(len.min(objects - part.first), whole) },
    );
}

/// The parts of the objects: one behind the other, at most `PARTS`, each with as many objects but for the last. Nothing
/// reaches any object. The flag says whether all will be kept of them, or their strengths alone.
fn parts_of<R: Threads + Sync>(
    rt: &R,
    alloc: Global,
    edited: Edited<'_>,
    whole: bool,
) -> Result<Vec<Part>, NoMemory>
    ensures { IfOk result (λ parts. AreHolding edited.entry.graph.now edited.entry.front.now whole 0 parts.items) }
{
    let objects = edited.graph.objects();
    let len = part_len(objects, whole);
    let mut parts = blank_parts(alloc, objects, len, whole)?;
    fill_parts(rt, &mut parts, len, objects, whole);
    if has_failed(&parts) {
        return Err(NoMemory);
    }
    Ok(parts)
}

/// Notes of an object that a root holds it.
fn hold(parts: &mut [Part], o: u32, root: u64)
    requires { IsHeldIn parts.old o }
    ensures { IsHeldBy parts.old parts.new o root }
{
    let k = holder(parts, o);
    let place = o - parts[k].first;
    parts[k].found.put(place, PackedReached::by_root(root));
}

/// The parts of the objects, where those roots of the dump that stand hold their objects. Nothing else is reached.
fn apply_dump_roots<R: Threads + Sync>(
    rt: &R,
    alloc: Global,
    edited: Edited<'_>,
    whole: bool,
) -> Result<Vec<Part>, NoMemory>
    requires removed { IsRemovedBy edited.graph.now edited.front.now edited.removed.now }
    ensures { IfOk result (λ parts. AreHolding edited.entry.graph.now edited.entry.front.now whole (length edited.entry.graph.now.roots) parts.items) }
{
    let mut parts = parts_of(rt, alloc, edited, whole)?;
    for r in 0..edited.graph.roots_len() {
        if let Some(o) = root_object(edited, r) {
            hold(&mut parts, o, u64::from(r));
        }
    }
    Ok(parts)
}

/// The parts of the objects, where all roots that stand hold their objects: those of the dump, and those that were added.
/// Nothing else is reached. The number of an added root is that of its event, counted on from the roots of the dump.
fn apply_roots<R: Threads + Sync>(
    rt: &R,
    alloc: Global,
    edited: Edited<'_>,
    whole: bool,
) -> Result<Vec<Part>, NoMemory>
    requires removed { IsRemovedBy edited.graph.now edited.front.now edited.removed.now }
    ensures { IfOk result (λ parts. AreHolding edited.entry.graph.now edited.entry.front.now whole (root_count edited.entry.graph.now edited.entry.front.now) parts.items) }
{
    let mut parts = apply_dump_roots(rt, alloc, edited, whole)?;
    let live = edited.front.flags();
    for k in 0..edited.front.len() {
        if let Some(o) = added_object(edited, live, k) {
            let root = u64::from(edited.graph.roots_len()) + u64::from(k);
            hold(&mut parts, o, root);
        }
    }
    Ok(parts)
}

/// Queues the objects of a part that are reached, in the order of their numbers.
fn queue_reached(part: &mut Part) -> Result<(), NoMemory>
    requires { IsReady part.old }
    ensures { OnOk result (HasQueued part.old part.new) }
{
    for place in 0..part.found.len() as u32 {
        if part.found.is_reached(place) {
            part.queue.push(part.first + place)?;
        }
    }
    Ok(())
}

/// Makes the room that a part needs where there are other parts, and queues its objects that are reached. The dump has
/// `objects` objects.
fn prepare(part: &mut Part, objects: u32) -> Result<(), NoMemory>
    requires { IsReady part.old }
    ensures { OnOk result (HasQueued part.old part.new) }
{
    part.make_cells(objects)?;
    queue_reached(part)?;
    Ok(())
}

/// Begins a part: its objects that are reached are queued. It notes whether memory ran out.
fn begin_part(part: &mut Part, objects: u32)
    requires { IsReady part.old }
    ensures { part.new.failed ≡ false → HasQueued part.old part.new }
{
    match prepare(part, objects) {
        Ok(()) => part.failed = false,
        Err(NoMemory) => part.failed = true,
    }
}

/// Begins each part, in a thread for each. The dump has `objects` objects.
fn begin_parts<R: Threads + Sync>(rt: &R, parts: &mut [Part], objects: u32)
    requires ready { AreReady parts.old }
    ensures count { length parts.new ≡ length parts.old }
    ensures each { HaveEachQueued parts.old parts.new }
{
    for_each_mut(
        rt,
        parts,
        PARTS,
        &|_: usize, part: &mut Part|
            requires { IsReady part.now }
            ensures { part.exit.now.failed ≡ false → HasQueued part.entry.now part.exit.now }
        { begin_part(part, objects) },
    );
}

/// The beginning of a search: only the objects that roots hold are reached, and these are queued.
pub(crate) fn begin<R: Threads + Sync>(
    rt: &R,
    alloc: Global,
    edited: Edited<'_>,
    whole: bool,
) -> Result<Search, NoMemory>
    requires removed { IsRemovedBy edited.graph.now edited.front.now edited.removed.now }
    ensures whole { IfOk result (λ search. search.whole ≡ whole) }
    ensures searching { IfOk result (λ search. HasComeTo edited.entry.graph.now edited.entry.front.now strengths.Strong search) }
{
    let mut parts = apply_roots(rt, alloc, edited, whole)?;
    begin_parts(rt, &mut parts, edited.graph.objects());
    if has_failed(&parts) {
        return Err(NoMemory);
    }
    Ok(Search { parts, whole })
}
