//! Searches by several parts of the objects: a row of arrays that goes to and fro between parts, and a round of many objects.
use crate::dumps::graph_of;
use hd_graph::Graph;
use hd_log::Front;
use hd_strength::{from_scratch, strengths_alone};
use hd_terms::{Slot, Strength, Support};
use std::alloc::Global;
use std::fmt::Write as _;
use std::process::Abort;

/// How many arrays the row has: more than one part holds, whose pages fill a group of 262,144 objects.
const ARRAYS: u32 = 300_000;

/// The number of the array behind another in the row, where there is one.
fn behind(o: u32) -> Option<u32> {
    if o < ARRAYS / 2 {
        Some((ARRAYS - 1).saturating_sub(o))
    } else if o > ARRAYS / 2 {
        Some(ARRAYS.saturating_sub(o))
    } else {
        None
    }
}

/// The number of the array before another in the row, as far as there is one.
fn before(o: u32) -> u32 {
    if o < ARRAYS / 2 {
        ARRAYS.saturating_sub(o)
    } else {
        (ARRAYS - 1).saturating_sub(o)
    }
}

/// The dump of the row: the first array, the last, the second, the last but one, and so on to the middle, so that each lies in
/// another part than the next. Each refers to the next, and a root holds the first. The array of a number has the ID behind it.
fn to_and_fro<R: Abort>(rt: &R, alloc: Global) -> String {
    let mut text = String::new(alloc);
    text.push_str("ids 4\nsegment\nroot 1\n")
        .expect(rt, "the text begins");
    for o in 0..ARRAYS {
        write!(text, "array {:x}:", o + 1).expect(rt, "the text grows");
        if let Some(next) = behind(o) {
            write!(text, " {:x}", u64::from(next) + 1).expect(rt, "the text grows");
        }
        writeln!(text).expect(rt, "the text grows");
    }
    text
}

#[test]
fn row_through_all_parts(rt: HostRuntime) {
    let text = to_and_fro(&rt, rt.alloc());
    let graph = graph_of(&rt, rt.alloc(), text.as_str()).expect(&rt, "the dump opens");
    let front = Front::empty(rt.alloc()).expect(&rt, "a log is made");
    let strengths = from_scratch(&rt, rt.alloc(), &graph, &front).expect(&rt, "the search ends");
    assert_eq!(rt; strengths.len(), ARRAYS);
    assert!(rt; strengths.strength(0) == Strength::Strong);
    assert!(rt; strengths.support(0) == Support::Root(0));
    for o in 1..ARRAYS {
        let source = before(o);
        let slot = Slot::Element(0);
        assert!(rt; strengths.strength(o) == Strength::Strong);
        assert!(rt; strengths.support(o) == Support::Edge { source, slot });
        assert!(rt; source < ARRAYS);
        assert!(rt; strengths.stamp(source) < strengths.stamp(o));
    }
}

#[test]
fn id_of_both_halves(rt: HostRuntime) {
    // the last array has the ID of the first, which two threads number: it is the first that stands
    let mut text = to_and_fro(&rt, rt.alloc());
    text.push_str("array 1: 2\n").expect(&rt, "the text grows");
    let graph = graph_of(&rt, rt.alloc(), text.as_str()).expect(&rt, "the dump opens");
    assert_eq!(rt; graph.objects(), ARRAYS);
    let numbers = [1, 2, 0x249f0, 0x249f1, 0x493e0, 0x493e1].map(|id| graph.index_of(id));
    let wanted = [
        Some(0),
        Some(1),
        Some(149_999),
        Some(150_000),
        Some(299_999),
        None,
    ];
    assert_eq!(rt; numbers, wanted);
    let first = graph
        .slot_index(0, Slot::Element(0))
        .expect(&rt, "the slot is there");
    assert!(rt; first < graph.slots_len(0));
    assert_eq!(rt; graph.slots(0, first).target, Some(299_999));
}

/// How many arrays of a crowd the first array refers to. So many wait at once that a round has several threads.
const FAN: u32 = 100_000;

/// Writes all arrays of a crowd but the first one. Those of IDs from 0x100000 on refer to those from 0x200000 on, the first to
/// the last, the second to the last but one, and so on. Each of those from 0x300000 on refers to the next.
fn write_crowd<R: Abort>(rt: &R, text: &mut String) {
    for k in 0..FAN {
        let last = FAN - 1 - k;
        writeln!(text, "array {:x}: {:x}", 0x10_0000 + k, 0x20_0000 + last).expect(
            rt,
            "the text grows",
        );
        writeln!(text, "array {:x}:", 0x20_0000 + k).expect(rt, "the text grows");
        writeln!(text, "array {:x}: {:x}", 0x30_0000 + k, 0x30_0000 + k + 1).expect(
            rt,
            "the text grows",
        );
    }
}

/// The dump of a crowd: an array that a root holds and that refers to the arrays of IDs from 0x100000 on, and to a weak
/// reference. The referent of this has the ID 0x31869e: the last but one of those from 0x300000 on, which nothing else reaches.
fn crowd<R: Abort>(rt: &R, alloc: Global) -> String {
    let mut text = String::new(alloc);
    text.push_str("ids 4\nreference-names\nsegment\nreference-classes\nroot 1\narray 1: 21")
        .expect(rt, "the text begins");
    for k in 0..FAN {
        write!(text, " {:x}", 0x10_0000 + k).expect(rt, "the text grows");
    }
    text.push_str("\nreference 21 of 13: 31869e\n")
        .expect(rt, "the text grows");
    write_crowd(rt, &mut text);
    text
}

/// How many objects of IDs in a row have a strength.
fn counted(graph: &Graph, strengths: &[Strength], first: u64, strength: Strength) -> u32 {
    let mut count = 0u32;
    for id in first..first.saturating_add(u64::from(FAN)) {
        if let Some(o) = graph.index_of(id) {
            if strengths.get(o as usize).copied() == Some(strength) {
                count = count.saturating_add(1);
            }
        }
    }
    count
}

#[test]
fn crowd_in_all_parts(rt: HostRuntime) {
    let text = crowd(&rt, rt.alloc());
    let graph = graph_of(&rt, rt.alloc(), text.as_str()).expect(&rt, "the dump opens");
    let front = Front::empty(rt.alloc()).expect(&rt, "a log is made");
    let alone = strengths_alone(&rt, rt.alloc(), &graph, &front).expect(&rt, "the search ends");
    let strong = Strength::Strong;
    assert_eq!(rt; counted(&graph, &alone, 0x10_0000, strong), 100_000);
    assert_eq!(rt; counted(&graph, &alone, 0x20_0000, strong), 100_000);
    let unreachable = Strength::Unreachable;
    assert_eq!(rt; counted(&graph, &alone, 0x30_0000, unreachable), 99_998);
    assert_eq!(rt; counted(&graph, &alone, 0x30_0000, Strength::Weak), 2);
}

#[test]
fn supports_of_a_crowd(rt: HostRuntime) {
    let text = crowd(&rt, rt.alloc());
    let graph = graph_of(&rt, rt.alloc(), text.as_str()).expect(&rt, "the dump opens");
    let front = Front::empty(rt.alloc()).expect(&rt, "a log is made");
    let strengths = from_scratch(&rt, rt.alloc(), &graph, &front).expect(&rt, "the search ends");
    for k in [0u64, 1, 4_095, 99_998, 99_999] {
        let o = graph
            .index_of(0x20_0000 + k)
            .expect(&rt, "the array is there");
        let source = graph
            .index_of(0x11_869f - k)
            .expect(&rt, "its array is there");
        let slot = Slot::Element(0);
        assert!(rt; o < strengths.len());
        assert!(rt; strengths.support(o) == Support::Edge { source, slot });
    }
}
