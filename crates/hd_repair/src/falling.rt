//! All that hangs below objects that lost their support falls with them. It is found round by round, by several threads where a
//! round has many objects.
ghost use denote.Param.Send.{IsSync, IsSend};
ghost use Rattle.std.specs.Prelude.{◌≡◌, ◌+◌, ◌<◌, ◌≤◌, [], ◌++◌, List, length, All, sum_by, IfOk, OnOk};
ghost use Rattle.hd_terms.specs.Regions.{Holding};
ghost use Rattle.hd_terms.specs.Settled.{Reached};
ghost use Rattle.hd_repair.specs.Alone.{AreSought, IsHalfway};
ghost use Rattle.hd_repair.specs.Falling.{AreDetached, FindsBelow, FindsFrom, IsBelowAdded, IsDetached};
ghost use Rattle.hd_repair.specs.Hanging.{NoneLate};
ghost use Rattle.hd_repair.specs.Losing.{looks_due, progress_of, targets_of, IsSince, IsUnderway};

use crate::threads::{THREADS, are_many, are_rows};
use crate::waiting::{Losing, Region};
use hd_edges::{EdgeMark, Edges};
use hd_supports::Supports;
use hd_terms::{NoMemory, Strength, Support};
use std::alloc::Global;
use std::thread::{Threads, join};

/// Objects that were found below others, and how many looks that took.
struct Below {
    objects: Vec<u32>,
    looks: u64,
}

impl Drop for Below {
    /// Drops the fields. A derived drop would be proved anew at each place that lets go of one.
    fn drop(self) {
        let Self { objects, looks: _ } = self;
    }
}

impl Below {
    /// What two threads found.
    fn join(mut self, other: Below) -> Result<Below, NoMemory>
        ensures objects { IfOk result (λ b. b.objects.items ≡ self.objects.items ++ other.objects.items) }
        ensures looks { IfOk result (λ b. b.looks ≤ self.looks + other.looks) }
    {
        self.looks = self.looks.saturating_add(other.looks);
        let mut objects = other.into_objects();
        self.objects.append(&mut objects)?;
        Ok(self)
    }

    /// The objects.
    fn into_objects(self) -> Vec<u32>
        ensures { result ≡ self.objects }
    {
        let Self { objects, looks: _ } = self;
        objects
    }
}

/// Adds the target of an edge, if the edge supports it.
fn add_if_below(kept: &Supports, edge: EdgeMark, below: &mut Vec<u32>) -> Result<(), NoMemory>
    requires { edge.target < length kept.now }
    ensures { OnOk result (IsBelowAdded kept.now edge.source edge.slot edge.target below.old.items below.new.items) }
{
    let support = Support::Edge {
        source: edge.source,
        slot: edge.slot,
    };
    if kept.support(edge.target) == support {
        below.push(edge.target)?;
    }
    Ok(())
}

/// Adds the objects that an object supports. Each of its edges is looked at once.
fn add_below<E: Edges>(
    edges: &mut E,
    kept: &Supports,
    o: u32,
    below: &mut Vec<u32>,
) -> Result<(), NoMemory>
    requires object { o < (E.rows edges.old).objects }
    requires count { length kept.now ≡ (E.rows edges.old).objects }
    ensures same { E.rows edges.new ≡ E.rows edges.old }
    ensures looks { E.look_count edges.new ≤ E.look_count edges.old + targets_of (E.rows edges.old) o }
    ensures below { OnOk result (FindsFrom kept.now o ((E.rows edges.old).out o) below.old.items below.new.items) }
{
    for i in 0..edges.out_len(o) {
        let edge = edges.out(o, i);
        add_if_below(kept, edge, below)?;
    }
    Ok(())
}

/// Adds the objects that some objects support.
fn add_below_each<E: Edges>(
    edges: &mut E,
    kept: &Supports,
    objects: &[u32],
    below: &mut Vec<u32>,
) -> Result<(), NoMemory>
    requires objects { All (λ o. o < (E.rows edges.old).objects) objects.now }
    requires count { length kept.now ≡ (E.rows edges.old).objects }
    ensures same { E.rows edges.new ≡ E.rows edges.old }
    ensures looks { OnOk result (E.look_count edges.new ≤ E.look_count edges.old + sum_by (targets_of (E.rows edges.old)) objects.now) }
    ensures below { OnOk result (FindsBelow (E.rows edges.old) kept.now objects.now below.old.items below.new.items) }
{
    for o in objects {
        add_below(edges, kept, *o, below)?;
    }
    Ok(())
}

/// The objects that some objects support, looked for with edges of its own.
fn below_of<E: Edges + Drop>(
    alloc: Global,
    edges: &E,
    kept: &Supports,
    objects: &[u32],
) -> Result<Below, NoMemory>
    requires objects { All (λ o. o < (E.rows edges.now).objects) objects.now }
    requires count { length kept.now ≡ (E.rows edges.now).objects }
    ensures looks { IfOk result (λ b. b.looks ≤ sum_by (targets_of (E.rows edges.now)) objects.now) }
    ensures below { IfOk result (λ b. FindsBelow (E.rows edges.now) kept.now objects.now [] b.objects.items) }
{
    let mut own = edges.unseen();
    let mut below = Vec::new(alloc);
    add_below_each(&mut own, kept, objects, &mut below)?;
    Ok(Below {
        objects: below,
        looks: own.looks(),
    })
}

/// The objects that some objects support, looked for by several threads.
#[cycle(below)]
fn below_by_threads<R: Threads + Sync, E: Edges + Sync + Drop>(
    rt: &R,
    alloc: Global,
    edges: &E,
    kept: &Supports,
    objects: &[u32],
    threads: usize,
) -> Result<Below, NoMemory>
    requires objects { All (λ o. o < (E.rows edges.now).objects) objects.now }
    requires count { length kept.now ≡ (E.rows edges.now).objects }
    ensures looks { IfOk result (λ b. b.looks ≤ sum_by (targets_of (E.rows edges.now)) objects.now) }
    ensures below { IfOk result (λ b. FindsBelow (E.rows edges.now) kept.now objects.now [] b.objects.items) }
{
    if threads <= 1 {
        let all = below_of(alloc, edges, kept, objects)?;
        return Ok(all);
    }
    let (own, others) = objects.split_at(objects.len() / threads);
    let left = threads - 1;
    let first = || -> Result<Below, NoMemory>
        requires objects { All (λ o. o < (E.rows edges.now).objects) own.now }
        requires count { length kept.now ≡ (E.rows edges.now).objects }
        ensures looks { IfOk result (λ b. b.looks ≤ sum_by (targets_of (E.rows edges.entry.now)) own.entry.now) }
        ensures below { IfOk result (λ b. FindsBelow (E.rows edges.entry.now) kept.entry.now own.entry.now [] b.objects.items) }
    { below_of(alloc, edges, kept, own) };
    let rest = || -> Result<Below, NoMemory>
        requires bounds { IsSync R.row × IsSync E.row }
        requires objects { All (λ o. o < (E.rows edges.now).objects) others.now }
        requires count { length kept.now ≡ (E.rows edges.now).objects }
        ensures looks { IfOk result (λ b. b.looks ≤ sum_by (targets_of (E.rows edges.entry.now)) others.entry.now) }
        ensures below { IfOk result (λ b. FindsBelow (E.rows edges.entry.now) kept.entry.now others.entry.now [] b.objects.items) }
    { below_by_threads(rt, alloc, edges, kept, others, left) };
    let (first, rest) = join(rt, first, rest);
    let all = first?.join(rest?)?;
    Ok(all)
}

/// Finds the objects that some objects support, by several threads where these are many.
fn find_below<R: Threads + Sync, E: Edges + Sync + Drop>(
    rt: &R,
    alloc: Global,
    edges: &mut E,
    kept: &Supports,
    objects: &[u32],
    below: &mut Vec<u32>,
) -> Result<(), NoMemory>
    requires objects { All (λ o. o < (E.rows edges.old).objects) objects.now }
    requires count { length kept.now ≡ (E.rows edges.old).objects }
    ensures same { E.rows edges.new ≡ E.rows edges.old }
    ensures looks { OnOk result (E.look_count edges.new ≤ E.look_count edges.old + sum_by (targets_of (E.rows edges.old)) objects.now) }
    ensures below { OnOk result (FindsBelow (E.rows edges.old) kept.now objects.now [] below.new.items) }
{
    below.clear();
    if !are_many(objects) {
        add_below_each(edges, kept, objects, below)?;
        return Ok(());
    }
    let found = below_by_threads(rt, alloc, edges, kept, objects, THREADS)?;
    edges.add_looks(found.looks);
    *below = found.into_objects();
    Ok(())
}

/// Takes the strength of an object, if it has one.
fn detach_one(kept: &mut Supports, gone: &mut Region, o: u32) -> Result<(), NoMemory>
    requires { o < length kept.old }
    ensures count { length kept.new ≡ length kept.old }
    ensures ok { OnOk result (IsDetached kept.old kept.new gone.old gone.new o) }
{
    let strength = kept.strength(o);
    if strength.rank() == 0 {
        return Ok(());
    }
    let stamp = kept.stamp(o);
    kept.put(o, Strength::Unreachable, Support::Nothing, stamp)?;
    gone.objects.push(o)?;
    gone.strengths.push(strength)?;
    Ok(())
}

/// Takes the strength of those of some objects that have one.
fn detach_each(kept: &mut Supports, gone: &mut Region, objects: &[u32]) -> Result<(), NoMemory>
    requires { All (λ o. o < length kept.old) objects.now }
    ensures count { length kept.new ≡ length kept.old }
    ensures ok { OnOk result (AreDetached kept.old kept.new gone.old gone.new objects.now) }
{
    for o in objects {
        detach_one(kept, gone, *o)?;
    }
    Ok(())
}

/// Takes the strength of the objects that wait.
fn detach_waiting(kept: &mut Supports, losing: &mut Losing) -> Result<(), NoMemory>
    requires { All (λ o. o < length kept.old) losing.old.waiting.items }
    ensures count { length kept.new ≡ length kept.old }
    ensures ok { OnOk result (AreDetached kept.old kept.new losing.old.gone losing.new.gone losing.old.waiting.items) }
    ensures none { OnOk result (losing.new.waiting.items ≡ []) }
    ensures rehung { losing.new.rehung ≡ losing.old.rehung }
    ensures lifted { losing.new.lifted ≡ losing.old.lifted }
    ensures sought { losing.new.sought ≡ losing.old.sought }
{
    let (first, rest) = losing.waiting.as_slices();
    detach_each(kept, &mut losing.gone, first)?;
    detach_each(kept, &mut losing.gone, rest)?;
    losing.waiting.clear();
    Ok(())
}

/// Takes the strength of the objects that wait, and of all that hangs below them. Each of their edges is looked at once.
pub(crate) fn fall<R: Threads + Sync, E: Edges + Sync + Drop>(
    rt: &R,
    alloc: Global,
    edges: &mut E,
    kept: &mut Supports,
    losing: &mut Losing,
) -> Result<(), NoMemory>
    requires { IsHalfway (E.rows edges.old) kept.old losing.old }
    ensures same { E.rows edges.new ≡ E.rows edges.old }
    ensures count { length kept.new ≡ length kept.old }
    ensures looks { OnOk result (E.look_count edges.new + looks_due (E.rows edges.old) (progress_of losing.old) ≤ E.look_count edges.old + looks_due (E.rows edges.old) (progress_of losing.new)) }
    ensures none { OnOk result (losing.new.waiting.items ≡ []) }
    ensures underway { OnOk result (IsUnderway (E.rows edges.old).standing (E.rows edges.old).objects kept.new (progress_of losing.new) NoneLate) }
    ensures since { OnOk result ((ks0 : List Reached) (lost : List Holding) → IsSince ks0 lost kept.old (progress_of losing.old) → IsSince ks0 lost kept.new (progress_of losing.new)) }
    ensures sought { OnOk result (AreSought (E.rows edges.old).standing kept.new losing.new.gone.objects.items losing.new.sought.items) }
{
    are_rows(edges);
    let first = losing.gone.objects.len();
    detach_waiting(kept, losing)?;
    let mut below = Vec::new(alloc);
    let mut next = first;
    while next < losing.gone.objects.len() {
        let end = losing.gone.objects.len();
        find_below(
            rt,
            alloc,
            edges,
            kept,
            &losing.gone.objects[next..],
            &mut below,
        )?;
        detach_each(kept, &mut losing.gone, &below)?;
        next = end;
    }
    losing
        .sought
        .extend_from_slice(&losing.gone.objects[first..])?;
    Ok(())
}
