//! Whether what a step tells of its event is what the strengths before and after it say: what fell, and how many objects
//! fell and came back.
ghost use Rattle.std.specs.Prelude.{◌≡◌, None};
ghost use Rattle.hd_terms.specs.Log.{log_fault};

use hd_state::{Done, Mark, State};
use hd_terms::{Event, NoMemory, Strength};
use std::alloc::Global;
use std::thread::Threads;

/// The IDs of the objects that are unreachable after and were not before.
fn fallen_by_strengths(
    alloc: Global,
    state: &State,
    before: &[Strength],
    after: &[Strength],
) -> Result<Vec<u64>, NoMemory> {
    let mut ids = Vec::new(alloc);
    let graph = state.graph();
    for o in 0..graph.objects() {
        let (Some(first), Some(last)) = (before.get(o as usize), after.get(o as usize)) else {
            return Err(NoMemory);
        };
        if *last == Strength::Unreachable && *first != Strength::Unreachable {
            ids.push(graph.id_of(o))?;
        }
    }
    ids.sort()?;
    Ok(ids)
}

/// Whether a state tells of what fell since a mark, and of how many objects fell and came back, what strengths say.
fn is_told(
    alloc: Global,
    state: &State,
    mark: &Mark,
    done: Done,
    before: &[Strength],
    after: &[Strength],
) -> Result<bool, NoMemory>
    requires { mark.now.dump ≡ state.now.dump }
{
    let fell = fallen_by_strengths(alloc, state, before, after)?;
    let back = fallen_by_strengths(alloc, state, after, before)?;
    let told = state.fell(alloc, mark, None)?;
    let counted = done.fell == fell.len() as u64 && done.back == back.len() as u64;
    Ok(counted && told.as_slice() == fell.as_slice())
}

/// The strengths of all objects of a state.
fn strengths_of(alloc: Global, state: &State) -> Result<Vec<Strength>, NoMemory> {
    let mut strengths = Vec::new(alloc);
    for o in 0..state.graph().objects() {
        strengths.push(state.strength(o))?;
    }
    Ok(strengths)
}

/// The state after one more event, which the log has to take, and whether what is told of the event is what the strengths
/// before and after it say.
pub fn step_and_compare<R: Threads + Sync>(
    rt: &R,
    alloc: Global,
    state: &State,
    event: Event,
) -> Result<(State, bool), NoMemory>
    requires { log_fault state.now.log event ≡ None }
{
    let mark = state.mark()?;
    let before = strengths_of(alloc, state)?;
    let (next, done) = state.step(rt, alloc, event)?;
    let after = strengths_of(alloc, &next)?;
    let is_right = is_told(alloc, &next, &mark, done, &before, &after)?;
    Ok((next, is_right))
}
