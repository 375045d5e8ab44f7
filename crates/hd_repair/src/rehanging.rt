//! Each object that lost its support is hung on another one, or is detached.
ghost use Rattle.std.specs.Prelude.{◌≡◌, ◌≢◌, ℕ, ◌+◌, ◌-◌, ◌^◌, ◌<◌, ◌≤◌, [], List, length, true, All, IfOk, OnOk};
ghost use Rattle.hd_terms.specs.declared.Slot.{Slot};
ghost use Rattle.hd_terms.specs.declared.Support.TheVariants as supports;
ghost use Rattle.hd_terms.specs.Ranks.{rank};
ghost use Rattle.hd_terms.specs.Regions.{Holding, WasSettledWith};
ghost use Rattle.hd_terms.specs.Settled.{reached_at, IsBefore, Reached};
ghost use Rattle.hd_repair.specs.Alone.{AreFirst, AreSought, IsAlone, IsLeftOver};
ghost use Rattle.hd_repair.specs.Hanging.{IsSupportFor, NoneLate};
ghost use Rattle.hd_repair.specs.Losing.{before_all, looks_due, progress_of, sources_of, IsSince, IsUnderway};
ghost use Rattle.hd_repair.specs.Spreading.{rank_at};
ghost use Rattle.hd_terms.specs.EdgeRows.{Rows};
ghost use Rattle.hd_repair.specs.Alone.{IfDone, IfLarge, IsDoneLosing, IsHalfway};
ghost use Rattle.hd_repair.specs.Marking.{IsLarge};

use crate::ahead::{Ahead, BATCH, read_object};
use crate::falling::fall;
use crate::lifting::lift_below;
use crate::marking::{Marks, large_region};
use crate::sources::find_support;
use crate::waiting::{Losing, Region, detach, loosen_lost, take_next};
use hd_edges::{Edges, Held};
use hd_supports::Supports;
use hd_terms::{NoMemory, Strength, Support};
use std::alloc::Global;
use std::collections::VecDeque;
use std::thread::Threads;

/// How many steps over stored chains a loss may take, beside those for each edge that is looked at.
const MOST_STEPS: u64 = 1 << 20;

/// The least stamp of an object of a strength that comes after what supports it.
fn stamp_after(kept: &Supports, strength: Strength, support: Support) -> u64
    requires within { (source : ℕ) (slot : Slot) → support ≡ supports.Edge source slot → source < length kept.now }
    requires enough { (source : ℕ) (slot : Slot) → support ≡ supports.Edge source slot → rank strength ≤ rank_at kept.now source }
    requires room { (o : ℕ) → (reached_at kept.now o).stamp < 2 ^ 48 - 1 }
    ensures later { (source : ℕ) (slot : Slot) → support ≡ supports.Edge source slot → (m : ℕ) → result ≤ m → IsBefore (reached_at kept.now source) (record { strength = strength; support = support; stamp = m }) }
    ensures bounded { (m : ℕ) → ((o : ℕ) → (reached_at kept.now o).stamp ≤ m) → result ≤ m + 1 }
    ensures small { result < 2 ^ 48 }
{
    match support {
        Support::Edge { source, .. } => {
            if kept.strength(source).rank() == strength.rank() {
                kept.stamp(source) + 1
            } else {
                0
            }
        }
        _ => 0,
    }
}

/// Hangs an object that waited on another support. Its strength stays. Where its source is later, stamps are lifted.
fn rehang<E: Edges>(
    edges: &mut E,
    kept: &mut Supports,
    losing: &mut Losing,
    o: u32,
    support: Support,
) -> Result<(), NoMemory>
    requires object { o < (E.rows edges.old).objects }
    requires underway { IsUnderway (E.rows edges.old).standing (E.rows edges.old).objects kept.old (before_all o (progress_of losing.old)) NoneLate }
    requires support { IsSupportFor (E.rows edges.old).standing kept.old o support }
    ensures same { E.rows edges.new ≡ E.rows edges.old }
    ensures count { length kept.new ≡ length kept.old }
    ensures looks { OnOk result (E.look_count edges.new + looks_due (E.rows edges.old) (progress_of losing.old) + sources_of (E.rows edges.old) o ≤ E.look_count edges.old + looks_due (E.rows edges.old) (progress_of losing.new)) }
    ensures underway { OnOk result (IsUnderway (E.rows edges.old).standing (E.rows edges.old).objects kept.new (progress_of losing.new) NoneLate) }
    ensures since { OnOk result ((ks0 : List Reached) (lost : List Holding) → IsSince ks0 lost kept.old (before_all o (progress_of losing.old)) → IsSince ks0 lost kept.new (progress_of losing.new)) }
    ensures done { OnOk result (length losing.new.rehung.items + length losing.new.gone.objects.items ≡ length losing.old.rehung.items + length losing.old.gone.objects.items + 1) }
    ensures left { OnOk result (IsLeftOver losing.old losing.new) }
    ensures strengths { OnOk result ((x : ℕ) → (reached_at kept.new x).strength ≡ (reached_at kept.old x).strength) }
{
    kept.are_few();
    let strength = kept.strength(o);
    let stamp = kept.stamp(o);
    let least = stamp_after(kept, strength, support);
    losing.rehung.push(o)?;
    if least <= stamp {
        kept.put(o, strength, support, stamp)?;
        return Ok(());
    }
    kept.put(o, strength, support, least)?;
    let first = losing.lifted.len();
    losing.lifted.push(o)?;
    lift_below(edges, kept, &mut losing.lifted, first)?;
    Ok(())
}

/// Hangs an object that waited on another support, or detaches it. For one that is alone no support is looked for.
fn settle_next<E: Edges>(
    edges: &mut E,
    kept: &mut Supports,
    losing: &mut Losing,
    o: u32,
    is_alone: bool,
    steps: &mut u64,
) -> Result<(), NoMemory>
    requires object { o < (E.rows edges.old).objects }
    requires underway { IsUnderway (E.rows edges.old).standing (E.rows edges.old).objects kept.old (before_all o (progress_of losing.old)) NoneLate }
    requires alone { is_alone ≡ true → IsAlone (E.rows edges.old).standing kept.old o }
    requires first { AreFirst losing.old.alone losing.old.waiting.items (IsAlone (E.rows edges.old).standing kept.old) }
    requires sought { AreSought (E.rows edges.old).standing kept.old losing.old.gone.objects.items losing.old.sought.items }
    ensures same { E.rows edges.new ≡ E.rows edges.old }
    ensures count { length kept.new ≡ length kept.old }
    ensures looks { OnOk result (E.look_count edges.new + looks_due (E.rows edges.old) (progress_of losing.old) ≤ E.look_count edges.old + looks_due (E.rows edges.old) (progress_of losing.new)) }
    ensures underway { OnOk result (IsUnderway (E.rows edges.old).standing (E.rows edges.old).objects kept.new (progress_of losing.new) NoneLate) }
    ensures since { OnOk result ((ks0 : List Reached) (lost : List Holding) → IsSince ks0 lost kept.old (before_all o (progress_of losing.old)) → IsSince ks0 lost kept.new (progress_of losing.new)) }
    ensures done { OnOk result (length losing.new.rehung.items + length losing.new.gone.objects.items ≡ length losing.old.rehung.items + length losing.old.gone.objects.items + 1) }
    ensures first { OnOk result (AreFirst losing.new.alone losing.new.waiting.items (IsAlone (E.rows edges.old).standing kept.new)) }
    ensures sought { OnOk result (AreSought (E.rows edges.old).standing kept.new losing.new.gone.objects.items losing.new.sought.items) }
{
    if is_alone {
        detach(edges, kept, losing, o)?;
        return Ok(());
    }
    if let Some(support) = find_support(edges, kept, o, steps) {
        rehang(edges, kept, losing, o, support)?;
        return Ok(());
    }
    detach(edges, kept, losing, o)?;
    losing.sought.push(o)?;
    Ok(())
}

/// Reads what the next objects that wait will ask for, once for each batch of them.
fn look_ahead<E: Edges>(edges: &E, kept: &Supports, waiting: &VecDeque<u32>, ahead: &mut Ahead) {
    if !ahead.is_due() {
        return;
    }
    let mut sum: u32 = 0;
    for i in 0..BATCH {
        if let Some(o) = waiting.get(i) {
            sum = sum.wrapping_add(read_object(edges, kept, *o));
        }
    }
    ahead.note(sum);
}

/// When a loss asks whether a search afresh looks at no more.
#[derive(Clone, Copy)]
pub struct Limits {
    /// After how many objects it asks.
    pub objects: u32,
    /// How many looks a search afresh takes at most.
    pub search: u64,
}

/// How far a loss came: no object waits any more, or its region is so large that a search afresh looks at no more.
pub(crate) enum Halfway {
    Done(Losing),
    Large(Marks),
}

/// The objects wait that the lost items held.
fn begin_losing(alloc: Global, kept: &mut Supports, lost: &[Held]) -> Result<Losing, NoMemory>
    requires room { (o : ℕ) → (reached_at kept.old o).stamp ≤ 2 ^ 47 }
    requires targets { All (λ (h : Holding). h.target < length kept.old) lost.now }
    requires holders { All (λ (h : Holding). h.holder ≢ supports.Nothing) lost.now }
    ensures count { length kept.new ≡ length kept.old }
    ensures none { IfOk result (λ losing. (r : Rows) → looks_due r (progress_of losing) ≡ 0) }
    ensures halfway { IfOk result (λ losing. (r : Rows) → length kept.old ≡ r.objects → WasSettledWith r.standing lost.now kept.old
        → IsHalfway r kept.new losing) }
    ensures since { IfOk result (λ losing. (r : Rows) → length kept.old ≡ r.objects → WasSettledWith r.standing lost.now kept.old
        → IsSince kept.old lost.now kept.new (progress_of losing)) }
{
    let waiting = loosen_lost(alloc, kept, lost)?;
    Ok(Losing {
        waiting,
        alone: 0,
        rehung: Vec::new(alloc),
        lifted: Vec::new(alloc),
        gone: Region {
            objects: Vec::new(alloc),
            strengths: Vec::new(alloc),
        },
        sought: Vec::new(alloc),
    })
}

/// Hangs objects that wait on another support, or detaches them, until none waits or `most` are done.
fn settle_waiting<E: Edges>(
    edges: &mut E,
    kept: &mut Supports,
    losing: &mut Losing,
    steps: &mut u64,
    most: u32,
) -> Result<(), NoMemory>
    requires { IsHalfway (E.rows edges.old) kept.old losing.old }
    ensures same { E.rows edges.new ≡ E.rows edges.old }
    ensures count { length kept.new ≡ length kept.old }
    ensures looks { OnOk result (E.look_count edges.new + looks_due (E.rows edges.old) (progress_of losing.old) ≤ E.look_count edges.old + looks_due (E.rows edges.old) (progress_of losing.new)) }
    ensures halfway { OnOk result (IsHalfway (E.rows edges.old) kept.new losing.new) }
    ensures since { OnOk result ((ks0 : List Reached) (lost : List Holding) → IsSince ks0 lost kept.old (progress_of losing.old) → IsSince ks0 lost kept.new (progress_of losing.new)) }
{
    let mut ahead = Ahead::none();
    for _ in 0..most {
        let Some((o, is_alone)) = take_next(losing) else {
            return Ok(());
        };
        look_ahead(edges, kept, &losing.waiting, &mut ahead);
        settle_next(edges, kept, losing, o, is_alone, steps)?;
    }
    Ok(())
}

/// Hangs each object that lost its support on another one, or detaches it; or tells that a search afresh looks at no more.
pub(crate) fn rehang_or_detach<R: Threads + Sync, E: Edges + Sync + Drop>(
    rt: &R,
    alloc: Global,
    edges: &mut E,
    kept: &mut Supports,
    lost: &[Held],
    limits: Limits,
) -> Result<Halfway, NoMemory>
    requires count { length kept.old ≡ (E.rows edges.old).objects }
    requires room { (o : ℕ) → (reached_at kept.old o).stamp ≤ 2 ^ 47 }
    requires targets { All (λ (h : Holding). h.target < (E.rows edges.old).objects) lost.now }
    requires holders { All (λ (h : Holding). h.holder ≢ supports.Nothing) lost.now }
    requires settled { WasSettledWith (E.rows edges.old).standing lost.now kept.old }
    ensures same { E.rows edges.new ≡ E.rows edges.old }
    ensures count { length kept.new ≡ length kept.old }
    ensures done { IfOk result (λ h. IfDone h (IsDoneLosing (E.rows edges.old) kept.old lost.now kept.new (E.look_count edges.old) (E.look_count edges.new))) }
    ensures large { IfOk result (λ h. IfLarge h (IsLarge (E.rows edges.old) kept.old lost.now (E.look_count edges.new) limits.search)) }
{
    let before = kept.share(alloc)?;
    let mut losing = begin_losing(alloc, kept, lost)?;
    let mut steps = MOST_STEPS;
    settle_waiting(edges, kept, &mut losing, &mut steps, limits.objects)?;
    if losing.waiting.len() > 0
        && let Some(marks) = large_region(alloc, edges, &before, lost, limits.search)?
    {
        return Ok(Halfway::Large(marks));
    }
    fall(rt, alloc, edges, kept, &mut losing)?;
    Ok(Halfway::Done(losing))
}
