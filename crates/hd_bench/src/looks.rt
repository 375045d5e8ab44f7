//! How many edges and roots the repairs of single cuts look at, beside the degree of what they affect.
use anyhow::{Result, anyhow};
use hd_edges::Edges;
use hd_graph::Graph;
use hd_log::Front;
use hd_state::State;
use hd_state_tests::looks::{NEVER, looks_of_event};
use hd_supports::Supports;
use hd_terms::{Edit, Event, Support, What};
use std::alloc::Global;
use std::sync::Arc;
use std::thread::Threads;

/// Adds the objects that an object supports.
fn push_supported(
    region: &mut Vec<u32>,
    graph: &Graph,
    supports: &Supports,
    source: u32,
) -> Result<()> {
    if source >= graph.objects() {
        return Ok(());
    }
    for index in 0..graph.slots_len(source) {
        let read = graph.slots(source, index);
        let holder = Support::Edge {
            source,
            slot: read.slot,
        };
        if let Some(target) = read.target
            && target < supports.len()
            && supports.support(target) == holder
        {
            region.push(target)?;
        }
    }
    Ok(())
}

/// The objects whose stored chain uses the support of an object, that object first.
fn region_of(alloc: Global, graph: &Graph, supports: &Supports, o: u32) -> Result<Vec<u32>> {
    let mut region = Vec::new(alloc);
    region.push(o)?;
    for next in 0..graph.objects() as usize {
        let Some(source) = region.get(next) else {
            break;
        };
        let source = *source;
        push_supported(&mut region, graph, supports, source)?;
    }
    Ok(region)
}

/// How many edges and roots are from, to and on objects.
fn degree_of<E: Edges>(edges: &E, objects: &[u32]) -> u64 {
    let mut degree: u64 = 0;
    for o in objects {
        if *o < edges.objects() {
            let out = u64::from(edges.out_len(*o));
            let into = u64::from(edges.into_len(*o));
            let roots = u64::from(edges.root_len(*o));
            degree = degree.wrapping_add(out + into + roots);
        }
    }
    degree
}

/// The cut of the edge that supports an object, if an edge does.
fn cut_of(graph: &Graph, supports: &Supports, o: u32) -> Option<Edit> {
    if o >= supports.len() {
        return None;
    }
    match supports.support(o) {
        Support::Edge { source, slot } if source < graph.objects() => {
            Some(Edit::Cut(graph.id_of(source), slot))
        }
        _ => None,
    }
}

/// Prints, of the cut of an object's support, how many objects it affects, their degree, and how many looks its repair took.
fn print_looks(
    rt: &(impl Print + AllocGlobal + Threads + Sync),
    state: &State,
    supports: &Supports,
    o: u32,
) -> Result<()> {
    let graph = state.graph();
    let Some(edit) = cut_of(graph, supports, o) else {
        return Ok(());
    };
    let event = Event {
        who: 0,
        what: What::Do(edit),
    };
    let region = region_of(rt.alloc(), graph, supports, o)?;
    let degree = degree_of(&state.view(), region.as_slice());
    let looks = looks_of_event(rt, rt.alloc(), graph, state.front(), event, NEVER).ok_or(anyhow!(
        "out of memory"
    ))?;
    let objects = region.len();
    println!(rt; "objects {objects} degree {degree} looks {looks}")?;
    Ok(())
}

/// Cuts the supports of `count` objects of a dump, one at a time, spread evenly over all.
pub(crate) fn measure_looks<R: Print + AllocGlobal + Threads + Sync>(
    rt: &R,
    graph: Arc<Graph>,
    count: &str,
) -> Result<()> {
    let count: u32 = count.parse()?;
    let state = State::open(rt, rt.alloc(), graph).map_err(|_| anyhow!("out of memory"))?;
    let supports = state
        .supports(rt.alloc())
        .map_err(|_| anyhow!("out of memory"))?;
    for k in 0..count {
        let o = u64::from(state.graph().objects()) * u64::from(k) / u64::from(count);
        print_looks(rt, &state, &supports, o as u32)?;
    }
    Ok(())
}
