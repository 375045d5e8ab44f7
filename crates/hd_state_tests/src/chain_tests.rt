//! Chains right after a dump was opened: they have as few links as any path to their object.
use crate::dumps::graph_of;
use hd_state::State;
use std::alloc::Global;
use std::fmt::Write;
use std::process::Abort;
use std::random::RandomSource;
use std::thread::Threads;

/// The last object of a list of 3,000, to which the first object of the dump leads by two ways: along the list, which stands
/// first in the first object and in the file, and by one object beside it.
const LAST: u64 = 0x1000 + 2999;

/// A dump with a long list and a short way to its last object.
fn list_beside_a_short_way<R: Abort>(rt: &R, alloc: Global) -> String {
    let first = "ids 4\nsegment\nroot 1\narray 1: 1000 2\n";
    let mut text = String::from_str(alloc, first).expect(rt, "the text begins");
    for id in 0x1000..LAST {
        let next = id + 1;
        write!(text, "array {id:x}: {next:x}\n").expect(rt, "the text grows");
    }
    write!(text, "array {LAST:x}:\narray 2: {LAST:x}\n").expect(rt, "the text ends");
    text
}

/// How many links the chain of an object of the opened dump has.
fn links_of<R: Abort + RandomSource + Threads + Sync>(
    rt: &R,
    alloc: Global,
    text: &str,
    id: u64,
) -> usize {
    let graph = graph_of(rt, alloc, text).expect(rt, "the dump opens");
    let state = State::open(rt, alloc, graph).expect(rt, "the state opens");
    let o = state
        .graph()
        .index_of(id)
        .expect(rt, "the dump has the object");
    let found = state.chain(alloc, o).expect(rt, "chains are looked for");
    let chain = found.expect(rt, "the object has a chain");
    chain.links.len()
}

#[test]
fn short_way_beside_a_long_list(rt: HostRuntime) {
    let text = list_beside_a_short_way(&rt, rt.alloc());
    let links = links_of(&rt, rt.alloc(), text.as_str(), LAST);
    assert_eq!(rt; links, 2);
    let links = links_of(&rt, rt.alloc(), text.as_str(), LAST - 1);
    assert_eq!(rt; links, 2999);
}
