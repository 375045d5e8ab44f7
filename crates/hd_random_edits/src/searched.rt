//! Whether a repair that asks for a search afresh, or takes all apart as a whole, makes what a repair object by object makes.
use crate::afresh::kept_of;
use hd_settled::is_settled;
use hd_state::State;
use hd_state_tests::looks::{ALWAYS, IdChange, NEVER, changes_of_event, repair_of_event};
use hd_terms::Event;
use std::alloc::Global;
use std::thread::Threads;

/// Whether two lists have the same changes, in any order. No object is in a list twice.
fn are_same(some: &[IdChange], others: &[IdChange]) -> bool {
    if some.len() != others.len() {
        return false;
    }
    for change in some {
        if !others.contains(change) {
            return false;
        }
    }
    true
}

/// Whether what a repair keeps that asks for a search is settled, once the log of a state has one more event.
fn is_settled_by_search<R: Threads + Sync>(
    rt: &R,
    alloc: Global,
    state: &State,
    event: Event,
) -> Option<bool> {
    let repair = repair_of_event(rt, alloc, state.graph(), state.front(), event, ALWAYS)?;
    let kept = kept_of(alloc, &repair.supports).ok()?;
    let after = state.front().extend(alloc, event).ok()?;
    is_settled(alloc, state.graph(), &after, &kept).ok()
}

/// Whether one more event changes the same whether a search is asked for or not, and what a search leaves is settled.
pub fn is_same_by_search<R: Threads + Sync>(
    rt: &R,
    alloc: Global,
    state: &State,
    event: Event,
) -> bool {
    let (graph, front) = (state.graph(), state.front());
    let (Some(repaired), Some(searched)) = (
        changes_of_event(rt, alloc, graph, front, event, NEVER),
        changes_of_event(rt, alloc, graph, front, event, ALWAYS),
    ) else {
        return false;
    };
    are_same(&repaired, &searched) && is_settled_by_search(rt, alloc, state, event) == Some(true)
}
