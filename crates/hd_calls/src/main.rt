//! Calls below the board over two dumps: what each answers, and what the state that was asked shows afterwards.
//!
//! The stored output is what they answer with ample memory. `checks/refuse_calls.py` runs the program with each allocation
//! refused in turn.
#![tactic(auto)]

ghost use Rattle.std.specs.Prelude.{◌≡◌};

use hd_decode::NoGate;
use hd_graph::Graph;
use hd_log::Front;
use hd_opening::open_dump;
use hd_settled::is_settled;
use hd_spell::spell;
use hd_state::{Mark, State};
use hd_state_tests::dumps::{TWO_ARRAYS, WEAK_AND_FINAL};
use hd_strength::from_scratch;
use hd_terms::{Edit, Event, Group, Mode, NoMemory, Slot, Strength, What};
use std::alloc::Global;
use std::io;
use std::random::RandomSource;
use std::sync::Arc;
use std::thread::Threads;

/// A dump, the edit that is made in it, and the ID of the object that this is about.
#[derive(Clone, Copy)]
struct Sample {
    name: &'static str,
    text: &'static str,
    edit: Edit,
    id: u64,
}

/// The dumps.
const SAMPLES: [Sample; 2] = [
    Sample {
        name: "arrays",
        text: TWO_ARRAYS,
        edit: Edit::Cut(1, Slot::Element(0)),
        id: 2,
    },
    Sample {
        name: "references",
        text: WEAK_AND_FINAL,
        edit: Edit::Clear(0x21),
        id: 5,
    },
];

/// The number of items in a list that was asked for.
fn len_of<T: Drop>(items: Result<Vec<T>, NoMemory>) -> Result<usize, NoMemory> {
    Ok(items?.len())
}

/// Prints what a state shows: the strength of each object, and how many arrays of no class are strong.
fn print_state(rt: &impl Print, state: &State) -> io::Result<()> {
    for o in 0..state.graph().objects() {
        let strength = state.strength(o);
        print!(rt; "{strength:?} ")?;
    }
    let (count, bytes) = state.total(Group::Class(0), Strength::Strong);
    println!(rt; "{count} {bytes}")?;
    Ok(())
}

/// Prints what a call answered, a number, and what the state shows afterwards.
fn print_answer(
    rt: &impl Print,
    state: &State,
    name: &str,
    answer: Result<usize, NoMemory>,
) -> io::Result<()> {
    match answer {
        Ok(number) => println!(rt; "{name}: {number}")?,
        Err(NoMemory) => println!(rt; "{name}: OutOfMemory")?,
    }
    print_state(rt, state)
}

/// Prints the strengths of a search from scratch, and whether what it found is settled.
fn print_search<R: Print + AllocGlobal + Threads + Sync>(
    rt: &R,
    graph: &Graph,
    front: &Front,
) -> io::Result<()> {
    let Ok(strengths) = from_scratch(rt, rt.alloc(), graph, front) else {
        println!(rt; "search: OutOfMemory")?;
        return Ok(());
    };
    print!(rt; "search:")?;
    for o in 0..strengths.len() {
        let strength = strengths.strength(o);
        print!(rt; " {strength:?}")?;
    }
    println!(rt; "")?;
    match is_settled(rt.alloc(), graph, front, &strengths) {
        Ok(settled) => println!(rt; "settled: {settled}")?,
        Err(NoMemory) => println!(rt; "settled: OutOfMemory")?,
    }
    Ok(())
}

/// How many links an object's chain has, 0 where it has none.
fn links_of(alloc: Global, state: &State, o: u32) -> Result<usize, NoMemory> {
    match state.chain(alloc, o)? {
        Some(chain) => Ok(chain.links.len()),
        None => Ok(0),
    }
}

/// Prints how many lines the queries about an object have.
fn print_object<R: Print + AllocGlobal>(rt: &R, state: &State, o: u32) -> io::Result<()> {
    if o >= state.graph().objects() {
        return Ok(());
    }
    let alloc = rt.alloc();
    print_answer(rt, state, "chain", links_of(alloc, state, o))?;
    print_answer(rt, state, "slots", len_of(state.slots(alloc, o)))?;
    print_answer(rt, state, "into", len_of(state.into(alloc, o)))
}

/// Prints how many lines the queries about all objects have.
fn print_groups<R: Print + AllocGlobal>(rt: &R, state: &State) -> io::Result<()> {
    let alloc = rt.alloc();
    let arrays = Group::Class(0);
    print_answer(rt, state, "roots", len_of(state.roots(alloc)))?;
    print_answer(
        rt,
        state,
        "classes",
        len_of(state.classes(alloc, Strength::Strong)),
    )?;
    print_answer(rt, state, "top", len_of(state.top(alloc, Strength::Strong)))?;
    print_answer(rt, state, "groups", len_of(state.groups(alloc)))?;
    let all = state.members(alloc, arrays, Strength::Strong, None);
    print_answer(rt, state, "members", len_of(all))?;
    let first = state.members(alloc, arrays, Strength::Strong, Some(1));
    print_answer(rt, state, "first member", len_of(first))
}

/// Prints how many lines the queries since a mark have.
fn print_since<R: Print + AllocGlobal>(rt: &R, state: &State, mark: &Mark) -> io::Result<()>
    requires { mark.now.dump ≡ state.now.dump }
{
    let alloc = rt.alloc();
    print_answer(rt, state, "fell", len_of(state.fell(alloc, mark, None)))?;
    print_answer(rt, state, "moved", len_of(state.moved(alloc, mark)))?;
    let freed = match state.freed(alloc, mark) {
        Ok(freed) => Ok(freed.rows.len()),
        Err(NoMemory) => Err(NoMemory),
    };
    print_answer(rt, state, "freed", freed)
}

/// Prints what an edit does, and what the state after it answers.
fn print_step<R: Print + AllocGlobal + Threads + Sync>(
    rt: &R,
    state: &State,
    edit: Edit,
    mark: &Mark,
) -> io::Result<()>
    requires { mark.now.dump ≡ state.now.dump }
{
    let event = Event {
        who: 0,
        what: What::Do(edit),
    };
    if state.front().next_fault(&event).is_some() {
        return Ok(());
    }
    let Ok((next, done)) = state.step(rt, rt.alloc(), event) else {
        println!(rt; "step: OutOfMemory")?;
        return Ok(());
    };
    let (event, fell, back) = (done.event, done.fell, done.back);
    println!(rt; "step: event {event} fell {fell} back {back}")?;
    print_state(rt, &next)?;
    print_since(rt, &next, mark)?;
    print_search(rt, next.graph(), next.front())
}

/// Prints what the calls on an opened state answer.
fn print_calls<R: Print + AllocGlobal + Threads + Sync>(
    rt: &R,
    state: &State,
    sample: Sample,
) -> io::Result<()> {
    print_state(rt, state)?;
    print_search(rt, state.graph(), state.front())?;
    if let Some(o) = state.graph().index_of(sample.id) {
        print_object(rt, state, o)?;
    }
    print_groups(rt, state)?;
    match state.mark() {
        Ok(mark) => print_step(rt, state, sample.edit, &mark)?,
        Err(NoMemory) => println!(rt; "mark: OutOfMemory")?,
    }
    print_state(rt, state)
}

/// The graph of a sample, opened by a number of workers from 1 to 16; nothing where memory ran out.
fn opened<R: AllocGlobal + RandomSource + Threads + Sync>(
    rt: &R,
    sample: Sample,
    workers: u32,
) -> Option<Arc<Graph>> {
    let bytes = spell(rt.alloc(), sample.text).ok()?;
    let workers = workers.clamp(1, 16);
    open_dump(
        rt,
        rt.alloc(),
        bytes.as_slice(),
        workers,
        Mode::Direct,
        &NoGate,
    )
    .ok()
}

/// Opens a sample, and prints what the calls on it answer.
fn print_sample<R: Print + AllocGlobal + RandomSource + Threads + Sync>(
    rt: &R,
    sample: Sample,
    workers: u32,
) -> io::Result<()> {
    let name = sample.name;
    println!(rt; "{name}, workers {workers}")?;
    let Some(graph) = opened(rt, sample, workers) else {
        println!(rt; "graph: OutOfMemory")?;
        return Ok(());
    };
    match State::open(rt, rt.alloc(), graph) {
        Ok(state) => print_calls(rt, &state, sample),
        Err(NoMemory) => {
            println!(rt; "state: OutOfMemory")?;
            Ok(())
        }
    }
}

fn main(rt: HostRuntime) -> io::Result<()> {
    for workers in [1, 16] {
        for sample in SAMPLES {
            print_sample(&rt, sample, workers)?;
        }
    }
    Ok(())
}
