//! How long a search afresh takes: the strengths and supports of all objects, and the totals of groups, as an opening makes
//! them. Edits are compared with it.
use crate::boards::lap;
use anyhow::{Result, anyhow};
use hd_graph::Graph;
use hd_log::Front;
use hd_strength::{Removed, from_removed};
use hd_totals::GroupTotals;
use std::rt::Clock;
use std::sync::Arc;
use std::thread::Threads;
use std::time::Instant;

/// Searches once, and prints the microseconds that the search and the totals took.
fn search_once<R: Clock + Print + AllocGlobal + Threads + Sync>(
    rt: &R,
    graph: &Graph,
    front: &Front,
) -> Result<()> {
    let start = Instant::now(rt)?;
    let removed = Removed::of(rt.alloc(), graph, front).map_err(|_| anyhow!("out of memory"))?;
    let supports = from_removed(rt, rt.alloc(), graph, front, &removed).map_err(|_| anyhow!(
        "out of memory"
    ))?;
    let searched = lap(rt, "search", start)?;
    let _totals = GroupTotals::of(rt, rt.alloc(), graph, &supports).map_err(|_| anyhow!(
        "out of memory"
    ))?;
    let _counted = lap(rt, "totals", searched)?;
    Ok(())
}

/// Searches a dump under the empty log, `count` times.
pub(crate) fn measure_search<R: Clock + Print + AllocGlobal + Threads + Sync>(
    rt: &R,
    graph: Arc<Graph>,
    count: &str,
) -> Result<()> {
    let count: u32 = count.parse()?;
    let front = Front::empty(rt.alloc()).map_err(|_| anyhow!("out of memory"))?;
    for _ in 0..count {
        search_once(rt, &graph, &front)?;
    }
    Ok(())
}
