//! Whether a state is as one computed afresh.
use hd_settled::is_settled;
use hd_state::State;
use hd_strength::{from_scratch, strengths_alone};
use hd_supports::{PackedReached, Strengths, Supports};
use hd_terms::{NoMemory, Strength};
use hd_totals::GroupTotals;
use std::alloc::Global;
use std::thread::Threads;

const STRENGTHS: [Strength; 6] = [
    Strength::Unreachable,
    Strength::Phantom,
    Strength::Final,
    Strength::Weak,
    Strength::Soft,
    Strength::Strong,
];

/// What a state keeps of each object, as a search leaves it.
pub fn kept_of(alloc: Global, supports: &Supports) -> Result<Strengths, NoMemory> {
    let mut kept = Vec::new(alloc);
    for o in 0..supports.len() {
        let reached = PackedReached::new(
            supports.strength(o),
            supports.support(o),
            supports.stamp(o),
        );
        kept.push(reached)?;
    }
    if kept.len() >= 1 << 32 {
        return Err(NoMemory);
    }
    Ok(Strengths::of(kept))
}

/// Whether the same strengths are kept of the same number of objects.
fn have_same_strengths(a: &Strengths, b: &Strengths) -> bool {
    if a.len() != b.len() {
        return false;
    }
    for o in 0..a.len() {
        if a.strength(o) != b.strength(o) {
            return false;
        }
    }
    true
}

/// Whether these are the strengths that are kept of the objects.
fn are_kept(strengths: &[Strength], kept: &Strengths) -> bool {
    if strengths.len() != kept.len() as usize {
        return false;
    }
    for o in 0..kept.len() {
        if strengths[o as usize] != kept.strength(o) {
            return false;
        }
    }
    true
}

/// Whether a state has the totals of what a search from scratch found.
fn has_totals<R: Threads + Sync>(
    rt: &R,
    alloc: Global,
    state: &State,
    found: Strengths,
) -> Result<bool, NoMemory> {
    let supports = Supports::of(alloc, found)?;
    if supports.len() != state.graph().objects() {
        return Ok(false);
    }
    let (totals, _pages) = GroupTotals::of(rt, alloc, state.graph(), &supports)?;
    for strength in STRENGTHS {
        if totals.classes(alloc, strength)? != state.classes(alloc, strength)? {
            return Ok(false);
        }
    }
    Ok(true)
}

/// Whether what a state keeps is settled under its log, with the strengths and totals of a search from scratch, and with the
/// strengths of one that keeps them alone.
pub fn is_as_afresh<R: Threads + Sync>(
    rt: &R,
    alloc: Global,
    state: &State,
) -> Result<bool, NoMemory> {
    let found = from_scratch(rt, alloc, state.graph(), state.front())?;
    let supports = state.supports(alloc)?;
    let kept = kept_of(alloc, &supports)?;
    if !is_settled(alloc, state.graph(), state.front(), &kept)? {
        return Ok(false);
    }
    if !have_same_strengths(&found, &kept) {
        return Ok(false);
    }
    let alone = strengths_alone(rt, alloc, state.graph(), state.front())?;
    if !are_kept(&alone, &kept) {
        return Ok(false);
    }
    has_totals(rt, alloc, state, found)
}
