//! How long it takes to open a board, to fork its first desk, and to append to it from a thread for each desk.
ghost use Rattle.std.specs.Prelude.{◌≤◌, IfOk};

use anyhow::{Context, Result, anyhow};
use hd_board::{Board, Desk, append_to, open};
use hd_graph::Graph;
use hd_log::Front;
use hd_terms::{Edit, Event, What};
use std::alloc::Global;
use std::rt::Clock;
use std::sync::atomic::{AtomicU64, Ordering};
use std::sync::{Arc, Wait};
use std::thread;
use std::thread::Threads;
use std::time::Instant;

/// How many events each analyst appends. Sixteen times this fills the log.
const EACH: u32 = 256;

/// What took how long since a moment, in microseconds; answers the moment now.
pub(crate) fn lap(rt: &(impl Print + Clock), name: &str, start: Instant) -> Result<Instant> {
    let micros = start.elapsed(rt)?.as_micros();
    println!(rt; "{name} {micros}")?;
    Ok(Instant::now(rt)?)
}

/// The ID of the first object, the one that the added roots hold.
fn first_id(graph: &Graph) -> Option<u64> {
    if graph.objects() == 0 {
        return None;
    }
    Some(graph.id_of(0))
}

/// An added root by an analyst.
fn add_by(who: u8, id: u64) -> Event {
    Event {
        who,
        what: What::Do(Edit::Add(id)),
    }
}

/// Appends events of one analyst and nothing else; each answer is what the analyst has seen then. Those that are taken are
/// counted.
fn append_each<R: Wait>(
    rt: &R,
    alloc: Global,
    board: &Board,
    desk: &Desk,
    id: u64,
    done: &AtomicU64,
) {
    let Ok(mut seen) = desk.seen().share() else {
        return;
    };
    for _ in 0..EACH {
        let Ok(answer) = board.append(rt, alloc, &seen, add_by(desk.who(), id)) else {
            return;
        };
        seen = answer;
        done.fetch_add(1, Ordering::SeqCst);
    }
}

/// Fills a log by all that an append does while it holds the lock, sixteen analysts by turns, without a lock. How many events
/// the log has then.
fn fill(alloc: Global, id: u64) -> Result<u32> {
    let mut log = Front::empty(alloc).map_err(|_| anyhow!("out of memory"))?;
    let mut seen = log.share().map_err(|_| anyhow!("out of memory"))?;
    for k in 0..16 * EACH {
        let event = add_by((k % 16) as u8, id);
        match append_to(alloc, &mut log, 0, 16, 1, &seen, event) {
            Ok(answer) => seen = answer,
            Err(_) => return Err(anyhow!("an append is refused")),
        }
    }
    Ok(log.len())
}

/// Sixteen private boards of the first desk, each with its desk.
fn fork_first(alloc: Global, desks: &[Desk]) -> Result<Vec<(Board, Desk)>> {
    let mut forks = Vec::new(alloc);
    let Some(desk) = desks.first() else {
        return Ok(forks);
    };
    for _ in 0..16u32 {
        let fork = Board::fork(desk).map_err(|_| anyhow!("out of memory"))?;
        forks.push(fork)?;
    }
    Ok(forks)
}

/// The number of desks that decimal digits spell.
fn desks_of(word: &str) -> Result<u8>
    ensures least { IfOk result (λ n. 1 ≤ n) }
    ensures most { IfOk result (λ n. n ≤ 16) }
{
    let desks: u8 = word.parse()?;
    if desks == 0 || desks > 16 {
        return Err(anyhow!("desks are 1 to 16"));
    }
    Ok(desks)
}

/// Opens a board over a graph, forks its first desk sixteen times, lets each desk append in a thread of its own, and then
/// fills a log without a lock.
pub(crate) fn measure_boards<R: Clock + Print + AllocGlobal + Threads + Wait + Sync>(
    rt: &R,
    graph: Arc<Graph>,
    desks: &str,
) -> Result<()> {
    let id = first_id(&graph).context("the dump has no object")?;
    let start = Instant::now(rt)?;
    let (board, mut desks) = open(rt, rt.alloc(), graph, desks_of(desks)?).map_err(|_| anyhow!(
        "out of memory"
    ))?;
    let opened = lap(rt, "board", start)?;
    let forks = fork_first(rt.alloc(), desks.as_slice())?;
    let forked = lap(rt, "forks", opened)?;
    let done = AtomicU64::new(0);
    let alloc = rt.alloc();
    thread::for_each_mut(
        rt,
        desks.as_mut_slice(),
        16,
        &|_, desk| { append_each(rt, alloc, &board, desk, id, &done) },
    );
    let appended = lap(rt, "appends", forked)?;
    let count = done.load(Ordering::SeqCst);
    println!(rt; "appended {count}")?;
    let filled = fill(alloc, id)?;
    let _filled = lap(rt, "under the lock alone", appended)?;
    println!(rt; "filled {filled}")?;
    drop(forks);
    Ok(())
}
