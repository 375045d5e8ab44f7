//! One log filled with as many events as a log takes.
use crate::afresh::is_as_afresh;
use crate::events::random_event_of_long_log;
use crate::is_refused;
use crate::shapes::{Shape, shaped_dump};
use hd_state::State;
use hd_state_tests::dumps::graph_in;
use hd_state_tests::random::next_random;
use hd_terms::{Event, Mode};
use std::alloc::Global;
use std::random::RandomSource;
use std::thread::Threads;

/// How many events a log takes.
const MOST_EVENTS: u32 = 4096;

/// How many random events are tried. Some are refused.
const TRIES: u32 = 40_000;

/// After how many events a state is compared with one computed afresh.
const BETWEEN: u32 = 64;

/// The state after one more event, and whether the event was made.
fn stepped<R: Threads + Sync>(
    rt: &R,
    alloc: Global,
    state: State,
    event: Event,
) -> Option<(State, bool)> {
    if is_refused(&state, event) {
        return Some((state, false));
    }
    if let Some(_fault) = state.front().next_fault(&event) {
        return Some((state, false));
    }
    let Ok((next, _)) = state.step(rt, alloc, event) else {
        return None;
    };
    Some((next, true))
}

/// Whether a state is as one computed afresh, if it is one to be compared.
fn is_right<R: Threads + Sync>(rt: &R, alloc: Global, state: &State) -> bool {
    if state.front().len() % BETWEEN != 0 {
        return true;
    }
    matches!(is_as_afresh(rt, alloc, state), Ok(true))
}

/// The state once a log is full or all tries are made, if each state that was compared was as one computed afresh.
fn filled<R: Threads + Sync>(rt: &R, alloc: Global, opened: State, random: u64) -> Option<State> {
    let mut state = opened;
    let mut x = random;
    for _ in 0..TRIES {
        if state.front().len() >= MOST_EVENTS {
            return Some(state);
        }
        x = next_random(x);
        let event = random_event_of_long_log(state.front(), x);
        let (next, made) = stepped(rt, alloc, state, event)?;
        state = next;
        if made && !is_right(rt, alloc, &state) {
            return None;
        }
    }
    Some(state)
}

/// How many events the log of a small random dump has once it is filled, if the states were as computed afresh.
pub fn events_of_long_log<R: RandomSource + Threads + Sync>(
    rt: &R,
    alloc: Global,
    shape: Shape,
    random: u64,
) -> Option<u32> {
    let text = shaped_dump(alloc, shape, random).ok()?;
    let graph = graph_in(rt, alloc, text.as_str(), Mode::Closure)?;
    let state = State::open(rt, alloc, graph).ok()?;
    let last = filled(rt, alloc, state, random)?;
    Some(last.front().len())
}
