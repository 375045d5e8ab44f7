//! Random edits and undos of random dumps, in both modes: after each, what is kept is settled, strengths and totals are
//! those that a search from scratch gives, what fell and came back is what they say, and each object's group lists those that
//! have its strength; and a repair that asks for a search afresh, or takes all apart as a whole, changes the same. One log is
//! filled. The stored output says that this held of each dump.
#![tactic(auto)]

mod afresh;
mod dumps;
mod events;
mod fallen;
mod long_log;
mod members;
mod searched;
mod shapes;

use afresh::is_as_afresh;
use events::random_event;
use fallen::step_and_compare;
use hd_queries::edit_refusal;
use hd_state::State;
use hd_state_tests::dumps::graph_in;
use hd_state_tests::random::next_random;
use hd_terms::{Event, Mode, What};
use long_log::events_of_long_log;
use members::lists_members;
use searched::is_same_by_search;
use shapes::{SHAPES, Shape, shaped_dump};
use std::alloc::Global;
use std::io;
use std::random::RandomSource;
use std::thread::Threads;

/// How many random dumps there are of a shape.
fn dumps_of(shape: Shape) -> u32 {
    match shape {
        Shape::Mixed => 30,
        _ => 6,
    }
}

/// How many random events a dump gets. Some are refused.
const EVENTS: u32 = 30;

/// Whether the dump refuses what an event edits.
pub fn is_refused(state: &State, event: Event) -> bool {
    match event.what {
        What::Do(edit) => edit_refusal(state.graph(), edit).is_some(),
        What::Undo(_) => false,
    }
}

/// The state after one more event, if what is told of it is right, or the same where the event may not be made.
fn stepped<R: Threads + Sync>(rt: &R, alloc: Global, state: State, event: Event) -> Option<State> {
    if is_refused(&state, event) {
        return Some(state);
    }
    if let Some(_fault) = state.front().next_fault(&event) {
        return Some(state);
    }
    if !is_same_by_search(rt, alloc, &state, event) {
        return None;
    }
    let Ok((next, is_right)) = step_and_compare(rt, alloc, &state, event) else {
        return None;
    };
    if !is_right {
        return None;
    }
    Some(next)
}

/// How many events the log of a state takes, if after each of them the state is as one computed afresh.
fn taken_events<R: Threads + Sync>(
    rt: &R,
    alloc: Global,
    opened: State,
    random: u64,
) -> Option<u32> {
    let mut state = opened;
    let mut x = random;
    for _ in 0..EVENTS {
        x = next_random(x);
        state = stepped(rt, alloc, state, random_event(x))?;
        let Ok(true) = is_as_afresh(rt, alloc, &state) else {
            return None;
        };
        let Ok(true) = lists_members(alloc, &state) else {
            return None;
        };
    }
    Some(state.front().len())
}

/// How many events a random dump takes in a mode, if each state is as one computed afresh.
fn taken_by_dump<R: RandomSource + Threads + Sync>(
    rt: &R,
    alloc: Global,
    shape: Shape,
    random: u64,
    mode: Mode,
) -> Option<u32> {
    let text = shaped_dump(alloc, shape, random).ok()?;
    let graph = graph_in(rt, alloc, text.as_str(), mode)?;
    let state = State::open(rt, alloc, graph).ok()?;
    taken_events(rt, alloc, state, random)
}

/// Prints whether each state of each random dump of a shape was as one computed afresh, in a mode. A dump that takes few
/// events shows nothing.
fn print_shape<R: Print + AllocGlobal + RandomSource + Threads + Sync>(
    rt: &R,
    mode: Mode,
    shape: Shape,
) -> io::Result<()> {
    let mut x = 0x9E37_79B9_7F4A_7C15u64;
    let dumps = dumps_of(shape);
    for _ in 0..dumps {
        x = next_random(x);
        match taken_by_dump(rt, rt.alloc(), shape, x, mode) {
            Some(taken) if taken > 5 => {}
            _ => println!(rt; "{mode:?}, {shape:?}: the dump of {x:#x} went wrong")?,
        }
    }
    println!(rt; "{mode:?}, {shape:?}: {dumps} dumps were gone through")
}

/// Prints whether each state of each random dump was as one computed afresh, in a mode.
fn print_mode<R: Print + AllocGlobal + RandomSource + Threads + Sync>(
    rt: &R,
    mode: Mode,
) -> io::Result<()> {
    for shape in SHAPES {
        print_shape(rt, mode, shape)?;
    }
    Ok(())
}

/// Prints how many events a log was filled with.
fn print_long_log<R: Print + AllocGlobal + RandomSource + Threads + Sync>(
    rt: &R,
) -> io::Result<()> {
    match events_of_long_log(rt, rt.alloc(), Shape::Mixed, 0x9E37_79B9_7F4A_7C15) {
        Some(events) => println!(rt; "A log was filled with {events} events"),
        None => println!(rt; "A long log went wrong"),
    }
}

fn main(rt: HostRuntime) -> io::Result<()> {
    print_mode(&rt, Mode::Direct)?;
    print_mode(&rt, Mode::Closure)?;
    print_long_log(&rt)
}
