//! Measures what `hdesk` itself doesn't tell. `hd_bench FILE boards 16` opens a board of 16 desks over a dump and lets them
//! append (`boards.rt`). `hd_bench FILE looks 40` tells how many edges and roots the repairs of 40 cuts look at (`looks.rt`).
//! `hd_bench FILE search 5` times five searches afresh (`search.rt`). With fewer words it does nothing.
#![tactic(auto)]

mod boards;
mod looks;
mod search;

use anyhow::{Result, anyhow};
use boards::measure_boards;
use hd_decode::NoGate;
use hd_graph::Graph;
use hd_opening::open_dump;
use hd_records::check_size;
use hd_terms::Mode;
use looks::measure_looks;
use search::measure_search;
use std::env;
use std::fs::{self, File};
use std::io::Read;
use std::random::RandomSource;
use std::rt::{Env, Files};
use std::sync::Arc;
use std::thread::Threads;

/// How many threads decode a dump.
const WORKERS: u32 = 4;

/// The bytes of a file, read at once into exactly as much memory.
fn read_file<R: Files<File = File> + AllocGlobal>(rt: &R, path: &str) -> Result<Vec<u8>> {
    let mut file = fs::open(rt, path)?;
    let len = file.metadata()?.len();
    if let Err(fault) = check_size(len) {
        return Err(anyhow!("{fault:?}"));
    }
    let mut bytes = Vec::with_capacity(rt.alloc(), len as usize)?;
    bytes.resize(len as usize, 0)?;
    file.read_exact(bytes.as_mut_slice())?;
    Ok(bytes)
}

/// The graph of the dump in a file.
fn open_file<R: Files<File = File> + AllocGlobal + RandomSource + Threads + Sync>(
    rt: &R,
    path: &str,
) -> Result<Arc<Graph>> {
    let bytes = read_file(rt, path)?;
    let graph = open_dump(
        rt,
        rt.alloc(),
        bytes.as_slice(),
        WORKERS,
        Mode::Direct,
        &NoGate,
    )
    .map_err(|fault| anyhow!("{fault:?}"))?;
    Ok(graph)
}

fn main(rt: HostRuntime) -> Result<()> {
    let mut words = env::args(&rt)?;
    let _program = words.next();
    let (Some(path), Some(what), Some(count)) = (words.next(), words.next(), words.next()) else {
        return Ok(());
    };
    let graph = open_file(&rt, path.as_str())?;
    match what.as_str() {
        "boards" => measure_boards(&rt, graph, count.as_str()),
        "looks" => measure_looks(&rt, graph, count.as_str()),
        "search" => measure_search(&rt, graph, count.as_str()),
        _ => Err(anyhow!("the words are FILE boards N, FILE looks N, or FILE search N")),
    }
}
