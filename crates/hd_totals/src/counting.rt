//! Counting objects by their groups and strengths, part by part, by several threads.
ghost use denote.Param.Send.{IsSync};
ghost use Rattle.std.specs.Prelude.{[], ◌≡◌, ◌+◌, ◌%◌, ◌<◌, ◌≤◌, ◌^◌, length, IfOk, OnOk};
ghost use Rattle.hd_terms.specs.declared.Group.{Group as OneGroup};
ghost use Rattle.hd_terms.specs.declared.Strength.{Strength as OneStrength};
ghost use Rattle.hd_terms.specs.Listed.{group_key};
ghost use Rattle.hd_totals.specs.GroupPages.{pages_behind, AreWhole as HaveMarks};
ghost use Rattle.hd_totals.specs.Members.{InRange};
ghost use Rattle.hd_totals.specs.Counting.{totals_of, AreGroupsCounted, AreJoined, AreWhole, IsShare};
ghost use Rattle.hd_totals.specs.Running.{plus_one, IsPlaced, IsRowPut};
ghost use Rattle.hd_totals.specs.Totals.{row_at, sums_of, total_for, total_in};

use crate::group_pages::{GroupPages, buckets_of};
use crate::keys::{GroupKeys, key_of};
use crate::last_changes::PAGE_OBJECTS;
use crate::total::StrengthTotals;
use hd_graph::Graph;
use hd_supports::Supports;
use hd_terms::{Group, NoMemory, Strength};
use std::alloc::Global;
use std::thread::{Threads, join};

/// In how many shares the objects are counted.
const SHARES: u32 = 4;

/// How many cells a share has for the places where it found totals last. The cell of a group is its first bucket, modulo this
/// number.
const PLACES: usize = 256;

/// The totals of some of the objects: the keys of their groups, and the totals of each, in the same order.
#[derive(Drop)]
pub struct Counted {
    pub(crate) keys: GroupKeys,
    pub(crate) rows: Vec<StrengthTotals>,
    /// Where the totals of the object's group are that was counted last. Objects often come group by group.
    pub(crate) last: usize,
}

/// The totals of some of the objects, and their pages.
#[derive(Drop)]
pub(crate) struct Share {
    pub(crate) counted: Counted,
    pub(crate) pages: GroupPages,
}

/// The place of a key, which may be new. The totals are in the order of the keys.
fn place_for(
    keys: &mut GroupKeys,
    rows: &mut Vec<StrengthTotals>,
    key: u128,
) -> Result<usize, NoMemory>
    requires whole { length rows.old.items ≡ length keys.old }
    requires small { key ≤ 18446744073709551872 }
    ensures { IfOk result (λ i. IsPlaced (record { keys = keys.old; rows = rows.old.items }) (record { keys = keys.new; rows = rows.new.items }) key i) }
{
    let index = keys.add(key)?;
    if index == rows.len() {
        rows.push(StrengthTotals::none())?;
    }
    Ok(index)
}

/// The same as `place_for`. Nothing is looked up where the place is `guess`.
#[inline(always)]
fn place_by_guess(
    keys: &mut GroupKeys,
    rows: &mut Vec<StrengthTotals>,
    key: u128,
    guess: usize,
) -> Result<usize, NoMemory>
    requires whole { length rows.old.items ≡ length keys.old }
    requires small { key ≤ 18446744073709551872 }
    ensures { IfOk result (λ i. IsPlaced (record { keys = keys.old; rows = rows.old.items }) (record { keys = keys.new; rows = rows.new.items }) key i) }
{
    if guess < keys.len() && keys.get(guess) == key {
        return Ok(guess);
    }
    place_for(keys, rows, key)
}

/// Counts an object in the totals of its group's key, which may be new, and gives their place. It is looked for at `guess` first.
#[inline(always)]
fn count_object(
    keys: &mut GroupKeys,
    rows: &mut Vec<StrengthTotals>,
    guess: usize,
    key: u128,
    strength: Strength,
    bytes: u64,
) -> Result<usize, NoMemory>
    requires whole { length rows.old.items ≡ length keys.old }
    requires small { key ≤ 18446744073709551872 }
    requires count { (total_for (row_at (record { keys = keys.old; rows = rows.old.items }) key) strength).count + 1 < 2 ^ 64 }
    requires bytes { (total_for (row_at (record { keys = keys.old; rows = rows.old.items }) key) strength).bytes + bytes < 2 ^ 64 }
    ensures { OnOk result (
        IsRowPut (record { keys = keys.old; rows = rows.old.items }) (record { keys = keys.new; rows = rows.new.items }) key
        (plus_one (row_at (record { keys = keys.old; rows = rows.old.items }) key) strength bytes)
        ) }
{
    let place = place_by_guess(keys, rows, key, guess)?;
    rows[place].add(strength, bytes);
    Ok(place)
}

/// The totals of the objects from one number on, which begins a page, before another, and their pages.
fn count_part(
    alloc: Global,
    graph: &Graph,
    supports: &Supports,
    start: u32,
    end: u32,
) -> Result<Share, NoMemory>
    requires count { length supports.now ≡ length graph.now.objects }
    requires page { start % 1024 ≡ 0 }
    requires order { start ≤ end }
    requires within { end ≤ length graph.now.objects }
    ensures { IfOk result (IsShare graph.now supports.now start end) }
{
    let mut keys = GroupKeys::new(alloc);
    let mut rows = Vec::new(alloc);
    let mut pages = GroupPages::none(alloc, (end - start).div_ceil(PAGE_OBJECTS) as usize)?;
    let mut places = vec![in alloc; 0; PLACES]?;
    for o in start..end {
        let group = graph.group_of(o);
        let key = key_of(group);
        let strength = supports.strength(o);
        let bytes = graph.bytes_of(o);
        let buckets = buckets_of(group);
        let cell = buckets.0 % PLACES;
        places[cell] = count_object(&mut keys, &mut rows, places[cell], key, strength, bytes)?;
        pages.note(
            ((o - start) / PAGE_OBJECTS) as usize,
            buckets,
            graph.id_of(o),
        );
    }
    let counted = Counted {
        keys,
        rows,
        last: 0,
    };
    Ok(Share { counted, pages })
}

/// Adds further totals of a group to those of its key, which may be new.
fn add_totals(
    keys: &mut GroupKeys,
    rows: &mut Vec<StrengthTotals>,
    key: u128,
    totals: StrengthTotals,
) -> Result<(), NoMemory>
    requires whole { length rows.old.items ≡ length keys.old }
    requires small { key ≤ 18446744073709551872 }
    requires counts { (s : OneStrength) → (total_for (row_at (record { keys = keys.old; rows = rows.old.items }) key) s).count + (total_for totals s).count < 2 ^ 64 }
    requires bytes { (s : OneStrength) → (total_for (row_at (record { keys = keys.old; rows = rows.old.items }) key) s).bytes + (total_for totals s).bytes < 2 ^ 64 }
    ensures { OnOk result (
        IsRowPut (record { keys = keys.old; rows = rows.old.items }) (record { keys = keys.new; rows = rows.new.items }) key
        (sums_of (row_at (record { keys = keys.old; rows = rows.old.items }) key) totals)
        ) }
{
    let place = place_for(keys, rows, key)?;
    rows[place] = rows[place].sum(totals);
    Ok(())
}

/// The totals of two parts together.
fn join_parts(one: Counted, other: Counted) -> Result<Counted, NoMemory>
    requires whole { AreWhole one × AreWhole other }
    requires counts { (group : OneGroup) (s : OneStrength) → InRange group → (total_in (totals_of one) group s).count + (total_in (totals_of other) group s).count < 2 ^ 64 }
    requires bytes { (group : OneGroup) (s : OneStrength) → InRange group → (total_in (totals_of one) group s).bytes + (total_in (totals_of other) group s).bytes < 2 ^ 64 }
    ensures { IfOk result (λ both. AreJoined (totals_of one) (totals_of other) (totals_of both)) }
{
    let Counted {
        mut keys,
        mut rows,
        last,
    } = one;
    for i in 0..other.rows.len() {
        let key = other.keys.get(i);
        add_totals(&mut keys, &mut rows, key, other.rows[i])?;
    }
    Ok(Counted { keys, rows, last })
}

/// Two shares together, of which the other's pages are the later ones.
fn join_shares(one: Share, other: Share) -> Result<Share, NoMemory>
    requires whole { AreWhole one.counted × AreWhole other.counted }
    requires counts { (group : OneGroup) (s : OneStrength) → InRange group → (total_in (totals_of one.counted) group s).count + (total_in (totals_of other.counted) group s).count < 2 ^ 64 }
    requires bytes { (group : OneGroup) (s : OneStrength) → InRange group → (total_in (totals_of one.counted) group s).bytes + (total_in (totals_of other.counted) group s).bytes < 2 ^ 64 }
    ensures joined { IfOk result (λ both. AreJoined (totals_of one.counted) (totals_of other.counted) (totals_of both.counted)) }
    ensures pages { IfOk result (λ both. both.pages ≡ pages_behind one.pages other.pages) }
    ensures marks { HaveMarks one.pages }
{
    let pages = one.pages.append(other.pages)?;
    let counted = join_parts(one.counted, other.counted)?;
    Ok(Share { counted, pages })
}

impl Counted {
    /// No object.
    pub fn none(alloc: Global) -> Counted
        ensures { totals_of result ≡ record { keys = []; rows = [] } }
    {
        let keys = GroupKeys::new(alloc);
        let rows = Vec::new(alloc);
        Counted {
            keys,
            rows,
            last: 0,
        }
    }

    /// Counts one more object of a group and a strength, which has `bytes` bytes.
    ///
    /// # Errors
    ///
    /// Memory ran out. The totals may not be used further.
    pub fn add(&mut self, group: Group, strength: Strength, bytes: u64) -> Result<(), NoMemory>
        requires whole { AreWhole self.old }
        requires count { (g : OneGroup) (s : OneStrength) → InRange g → (total_in (totals_of self.old) g s).count + 1 < 2 ^ 64 }
        requires bytes { (g : OneGroup) (s : OneStrength) → InRange g → (total_in (totals_of self.old) g s).bytes + bytes < 2 ^ 64 }
        ensures put { OnOk result (
            IsRowPut (totals_of self.old) (totals_of self.new) (group_key group)
            (plus_one (row_at (totals_of self.old) (group_key group)) strength bytes)
            ) }
        ensures range { InRange group }
    {
        let key = key_of(group);
        self.last = count_object(
            &mut self.keys,
            &mut self.rows,
            self.last,
            key,
            strength,
            bytes,
        )?;
        Ok(())
    }
}

/// Where the first of `shares` shares of the objects ends: where a page begins, so that no page has objects of two shares.
fn first_end(start: u32, end: u32, shares: u32) -> u32
    requires some { 0 < shares }
    requires page { start % 1024 ≡ 0 }
    requires order { start ≤ end }
    ensures page { result % 1024 ≡ 0 }
    ensures between { (start ≤ result) × (result ≤ end) }
{
    let each = (end - start) / shares;
    start + each / PAGE_OBJECTS * PAGE_OBJECTS
}

/// The same as `count_part`, in `shares` shares side by side. The calling thread begins a thread for each but the last, and counts
/// that one itself; where the system refuses a thread, one share after the other.
#[cycle(shares)]
fn count_shares<R: Threads + Sync>(
    rt: &R,
    alloc: Global,
    graph: &Graph,
    supports: &Supports,
    start: u32,
    end: u32,
    shares: u32,
) -> Result<Share, NoMemory>
    requires count { length supports.now ≡ length graph.now.objects }
    requires page { start % 1024 ≡ 0 }
    requires order { start ≤ end }
    requires within { end ≤ length graph.now.objects }
    ensures { IfOk result (IsShare graph.now supports.now start end) }
{
    if shares <= 1 {
        return count_part(alloc, graph, supports, start, end);
    }
    let middle = first_end(start, end, shares);
    let shares_left = shares - 1;
    let share = || -> Result<Share, NoMemory>
        requires { (length supports.now ≡ length graph.now.objects) × (start % 1024 ≡ 0) × (start ≤ middle) × (middle ≤ length graph.now.objects) }
        ensures { IfOk result (IsShare graph.entry.now supports.entry.now start middle) }
    { count_part(alloc, graph, supports, start, middle) };
    let others = || -> Result<Share, NoMemory>
        requires { IsSync R.row × (length supports.now ≡ length graph.now.objects) × (middle % 1024 ≡ 0) × (middle ≤ end) × (end ≤ length graph.now.objects) }
        ensures { IfOk result (IsShare graph.entry.now supports.entry.now middle end) }
    { count_shares(rt, alloc, graph, supports, middle, end, shares_left) };
    let (one, other) = join(rt, share, others);
    let both = join_shares(one?, other?)?;
    Ok(both)
}

/// The totals of all objects, and their pages.
pub(crate) fn count_all<R: Threads + Sync>(
    rt: &R,
    alloc: Global,
    graph: &Graph,
    supports: &Supports,
) -> Result<Share, NoMemory>
    requires { length supports.now ≡ length graph.now.objects }
    ensures counted { IfOk result (IsShare graph.now supports.now 0 (length graph.now.objects)) }
    ensures few { length graph.now.objects < 2 ^ 32 }
{
    let end = graph.objects();
    count_shares(rt, alloc, graph, supports, 0, end, SHARES)
}
