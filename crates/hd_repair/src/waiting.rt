//! Objects that lost their support wait for another one.
ghost use Rattle.std.specs.Prelude.{◌≡◌, ◌≢◌, ℕ, ◌+◌, ◌<◌, ◌≤◌, ◌⊎◌, [], ◌∷◌, ◌++◌, List, length, All, IfNone, IfOk, IfSome, MatchBool, OnOk};
ghost use Rattle.hd_terms.specs.declared.Strength.TheVariants as strengths;
ghost use Rattle.hd_terms.specs.declared.Support.TheVariants as supports;
ghost use Rattle.hd_terms.specs.Regions.{Holding};
ghost use Rattle.hd_terms.specs.Settled.{reached_at, Reached};
ghost use Rattle.hd_repair.specs.Hanging.{NoneLate};
ghost use Rattle.hd_repair.specs.Alone.{AreAtMost, AreFirst, FindsNone, IsFirstOr, JoinsAlone, TakesNext};
ghost use Rattle.hd_repair.specs.Losing.{before_all, looks_due, progress_of, sources_of, targets_of, AreLoosened, HoldNone, IsFrom, IsHeldOtherwise, IsLeft, IsLoose, IsLoosened, IsLost, IsSince, IsUnderway, SupportNone};

use crate::sources::has_one_source;
use hd_edges::{Edges, Held};
use hd_supports::Supports;
use hd_terms::{NoMemory, Strength, Support};
use std::alloc::Global;
use std::collections::VecDeque;

/// Objects that lost their strength, and the strength that each had.
pub(crate) struct Region {
    pub(crate) objects: Vec<u32>,
    pub(crate) strengths: Vec<Strength>,
}

impl Drop for Region {
    /// Drops the fields. A derived drop would be proved anew at each place that lets go of one.
    fn drop(self) {
        let Self { objects, strengths } = self;
    }
}

/// A loss on its way.
pub(crate) struct Losing {
    /// The objects that lost their support. They keep their strength while they wait.
    pub(crate) waiting: VecDeque<u32>,
    /// How many of them, the first ones, are alone: nothing leads to them but objects that are gone.
    pub(crate) alone: usize,
    /// Those that found another support.
    pub(crate) rehung: Vec<u32>,
    /// The objects whose stamp was lifted.
    pub(crate) lifted: Vec<u32>,
    /// Those that found none, and are unreachable until they are offered something.
    pub(crate) gone: Region,
    /// Those of them that aren't alone.
    pub(crate) sought: Vec<u32>,
}

impl Drop for Losing {
    /// Drops the fields. A derived drop would be proved anew at each place that lets go of one.
    fn drop(self) {
        let Self {
            waiting,
            alone: _,
            rehung,
            lifted,
            gone,
            sought,
        } = self;
    }
}

/// Takes an object's support away, if it is this one, and tells whether it was.
fn loosen(kept: &mut Supports, o: u32, holder: Support) -> Result<bool, NoMemory>
    requires { o < length kept.old }
    ensures count { length kept.new ≡ length kept.old }
    ensures ok { IfOk result (λ held. MatchBool held (IsLoose kept.old kept.new o holder) (IsHeldOtherwise kept.old kept.new o holder)) }
{
    if kept.support(o) != holder {
        return Ok(false);
    }
    let strength = kept.strength(o);
    let stamp = kept.stamp(o);
    kept.put(o, strength, Support::Nothing, stamp)?;
    Ok(true)
}

/// Lets an object wait behind the others, if this is what holds it.
fn wait_if_held(
    kept: &mut Supports,
    waiting: &mut VecDeque<u32>,
    o: u32,
    holder: Support,
) -> Result<(), NoMemory>
    requires { o < length kept.old }
    ensures count { length kept.new ≡ length kept.old }
    ensures ok { OnOk result (
        IsLoosened kept.old kept.new waiting.old.items waiting.new.items o holder
        ⊎ IsLeft kept.old kept.new waiting.old.items waiting.new.items o holder
        ) }
{
    if loosen(kept, o, holder)? {
        waiting.push_back(o)?;
    }
    Ok(())
}

/// Lets the objects wait that what is lost itself holds.
pub(crate) fn loosen_lost(
    alloc: Global,
    kept: &mut Supports,
    lost: &[Held],
) -> Result<VecDeque<u32>, NoMemory>
    requires targets { All (λ (h : Holding). h.target < length kept.old) lost.now }
    requires holders { All (λ (h : Holding). h.holder ≢ supports.Nothing) lost.now }
    ensures count { length kept.new ≡ length kept.old }
    ensures loosened { IfOk result (λ waiting. AreLoosened kept.old kept.new [] waiting.items (IsLost lost.now)) }
    ensures none { OnOk result (HoldNone kept.new lost.now) }
{
    let mut waiting = VecDeque::new(alloc);
    for held in lost {
        wait_if_held(kept, &mut waiting, held.target(), held.holder())?;
    }
    Ok(waiting)
}

/// Lets an object wait, if this is what holds it. One to which nothing else leads comes before the others, and counts as
/// alone: it needs no search, and chains that hang below it end the sooner.
fn loosen_if_held<E: Edges>(
    edges: &E,
    kept: &mut Supports,
    waiting: &mut VecDeque<u32>,
    alone: &mut usize,
    o: u32,
    holder: Support,
) -> Result<(), NoMemory>
    requires object { o < (E.rows edges.now).objects }
    requires count { length kept.old ≡ (E.rows edges.now).objects }
    requires few { alone.old ≤ length waiting.old.items }
    ensures count { length kept.new ≡ length kept.old }
    ensures ok { OnOk result (
        IsLoosened kept.old kept.new waiting.old.items waiting.new.items o holder
        ⊎ IsLeft kept.old kept.new waiting.old.items waiting.new.items o holder
        ) }
    ensures alone { OnOk result (JoinsAlone (E.rows edges.now) waiting.old.items waiting.new.items alone.old alone.new o) }
{
    if !loosen(kept, o, holder)? {
        return Ok(());
    }
    if has_one_source(edges, o) {
        *alone = waiting.len().min(*alone) + 1;
        waiting.push_front(o)?;
        return Ok(());
    }
    waiting.push_back(o)?;
    Ok(())
}

/// Lets the objects wait that an object supports. Each of its edges is looked at once.
fn loosen_below<E: Edges>(
    edges: &mut E,
    kept: &mut Supports,
    waiting: &mut VecDeque<u32>,
    alone: &mut usize,
    o: u32,
) -> Result<(), NoMemory>
    requires object { o < (E.rows edges.old).objects }
    requires count { length kept.old ≡ (E.rows edges.old).objects }
    requires few { alone.old ≤ length waiting.old.items }
    ensures same { E.rows edges.new ≡ E.rows edges.old }
    ensures count { length kept.new ≡ length kept.old }
    ensures looks { E.look_count edges.new ≤ E.look_count edges.old + targets_of (E.rows edges.old) o }
    ensures loosened { OnOk result (AreLoosened kept.old kept.new waiting.old.items waiting.new.items (IsFrom o)) }
    ensures none { OnOk result (SupportNone kept.new o ((E.rows edges.old).out o)) }
    ensures alone { OnOk result (AreFirst alone.new waiting.new.items (IsFirstOr (E.rows edges.old) waiting.old.items alone.old o)) }
{
    for i in 0..edges.out_len(o) {
        let edge = edges.out(o, i);
        let holder = Support::Edge {
            source: o,
            slot: edge.slot,
        };
        loosen_if_held(edges, kept, waiting, alone, edge.target, holder)?;
    }
    Ok(())
}

/// Takes the strength of an object that waited and found no support. What it supports waits from now on.
pub(crate) fn detach<E: Edges>(
    edges: &mut E,
    kept: &mut Supports,
    losing: &mut Losing,
    o: u32,
) -> Result<(), NoMemory>
    requires object { o < (E.rows edges.old).objects }
    requires underway { IsUnderway (E.rows edges.old).standing (E.rows edges.old).objects kept.old (before_all o (progress_of losing.old)) NoneLate }
    requires few { losing.old.alone ≤ length losing.old.waiting.items }
    ensures same { E.rows edges.new ≡ E.rows edges.old }
    ensures count { length kept.new ≡ length kept.old }
    ensures looks { OnOk result (E.look_count edges.new + looks_due (E.rows edges.old) (progress_of losing.old) + sources_of (E.rows edges.old) o ≤ E.look_count edges.old + looks_due (E.rows edges.old) (progress_of losing.new)) }
    ensures underway { OnOk result (IsUnderway (E.rows edges.old).standing (E.rows edges.old).objects kept.new (progress_of losing.new) NoneLate) }
    ensures since { OnOk result ((ks0 : List Reached) (lost : List Holding) → IsSince ks0 lost kept.old (before_all o (progress_of losing.old)) → IsSince ks0 lost kept.new (progress_of losing.new)) }
    ensures done { OnOk result (length losing.new.rehung.items + length losing.new.gone.objects.items ≡ length losing.old.rehung.items + length losing.old.gone.objects.items + 1) }
    ensures gone { OnOk result (losing.new.gone.objects.items ≡ losing.old.gone.objects.items ++ o ∷ []) }
    ensures sought { losing.new.sought ≡ losing.old.sought }
    ensures alone { OnOk result (AreFirst losing.new.alone losing.new.waiting.items (IsFirstOr (E.rows edges.old) losing.old.waiting.items losing.old.alone o)) }
    ensures unreachable { OnOk result ((reached_at kept.new o).strength ≡ strengths.Unreachable) }
    ensures at_most { OnOk result (AreAtMost kept.old kept.new) }
{
    loosen_below(edges, kept, &mut losing.waiting, &mut losing.alone, o)?;
    let strength = kept.strength(o);
    let stamp = kept.stamp(o);
    kept.put(o, Strength::Unreachable, Support::Nothing, stamp)?;
    losing.gone.objects.push(o)?;
    losing.gone.strengths.push(strength)?;
    Ok(())
}

/// Takes the object that waits first, and tells whether it is alone.
pub(crate) fn take_next(losing: &mut Losing) -> Option<(u32, bool)>
    ensures none { IfNone result (FindsNone losing.old losing.new) }
    ensures some { IfSome result (λ r. TakesNext losing.old losing.new r.0 r.1) }
{
    let o = losing.waiting.pop_front()?;
    let is_alone = losing.alone > 0;
    losing.alone = losing.alone.saturating_sub(1);
    Some((o, is_alone))
}
