//! Objects, slots, roots and groups as a graph answers them, and supports.
use crate::dumps::{CYCLE, TWO_ARRAYS, WEAK_AND_FINAL, graph_of};
use hd_log::Front;
use hd_strength::from_scratch;
use hd_terms::{EdgeKind, Group, RefKind, RootKind, Slot, Strength, Support};

#[test]
fn objects_and_roots(rt: HostRuntime) {
    let graph = graph_of(&rt, rt.alloc(), TWO_ARRAYS).expect(&rt, "the dump opens");
    assert_eq!(rt; graph.objects(), 2);
    assert_eq!(rt; graph.id_of(0), 1);
    assert_eq!(rt; graph.id_of(1), 2);
    assert_eq!(rt; graph.index_of(2), Some(1));
    assert_eq!(rt; graph.index_of(9), None);
    assert_eq!(rt; graph.index_of(0), None);
    assert_eq!(rt; graph.roots_len(), 1);
    let root = graph.roots(0);
    assert!(rt; root.kind == RootKind::Unknown && root.id == 1 && root.object == Some(0));
}

#[test]
fn slots(rt: HostRuntime) {
    let graph = graph_of(&rt, rt.alloc(), TWO_ARRAYS).expect(&rt, "the dump opens");
    assert_eq!(rt; graph.objects(), 2);
    assert_eq!(rt; graph.slots_len(0), 4);
    assert_eq!(rt; graph.slots_len(1), 1);
    let row = [
        (Slot::Element(0), 2, Some(1)),
        (Slot::Element(1), 0, None),
        (Slot::Element(2), 9, None),
        (Slot::OfClass, 0, None),
    ];
    let targets = graph.targets(0);
    assert_eq!(rt; targets.len(), 4);
    for i in 0..4u32 {
        let (slot, id, target) = row[i as usize];
        let read = graph.slots(0, i);
        assert!(rt; read.slot == slot && read.kind == EdgeKind::Strong);
        assert!(rt; read.id == id && read.target == target && targets.get(i) == target);
        let name = graph.slot_name(0, i);
        assert!(rt; name.slot == slot && name.kind == EdgeKind::Strong);
        assert_eq!(rt; graph.slot_index(0, slot), Some(i));
    }
    assert_eq!(rt; graph.slot_index(0, Slot::Element(3)), None);
}

/// A root of each kind, on the IDs 1 to 9.
const ROOTS: &str = "ids 4\nsegment\nbytes ff 00000001\nbytes 01 00000002 00000066\n\
    bytes 02 00000003 00000077 00000088\nbytes 03 00000004 00000077 00000088\n\
    bytes 04 00000005 00000077\nbytes 05 00000006\nbytes 06 00000007 00000077\n\
    bytes 07 00000008\nbytes 08 00000009 00000077 00000077\narray 3:\n";

#[test]
fn kinds_of_roots(rt: HostRuntime) {
    let kinds = [
        RootKind::Unknown,
        RootKind::JniGlobal,
        RootKind::JniLocal,
        RootKind::JavaFrame,
        RootKind::NativeStack,
        RootKind::StickyClass,
        RootKind::ThreadBlock,
        RootKind::MonitorUsed,
        RootKind::Thread,
    ];
    let graph = graph_of(&rt, rt.alloc(), ROOTS).expect(&rt, "the dump opens");
    assert_eq!(rt; graph.roots_len(), 9);
    for r in 0..9u32 {
        let root = graph.roots(r);
        let object = if r == 2 { Some(0) } else { None };
        assert_eq!(rt; root.kind, kinds[r as usize]);
        assert_eq!(rt; root.id, u64::from(r) + 1);
        assert_eq!(rt; root.object, object);
    }
}

/// A class with an int as its static, an instance of it, an object array of it, and two ints in an array.
const GROUPS: &str = "ids 4\nsegment\n\
    bytes 20 00000011 00000000 00000000 00000005 00000000 00000000 00000000 00000000 00000004\n\
    bytes 0000 0001 00000201 0a 00000007 0001 00000107 0b\n\
    instance 2 of 11: 0000000000000001\narray 3 of 11: 2 0 9\n\
    bytes 23 00000006 00000000 00000002 0a 00000001 00000002\n";

#[test]
fn groups_and_bytes(rt: HostRuntime) {
    let graph = graph_of(&rt, rt.alloc(), GROUPS).expect(&rt, "the dump opens");
    assert_eq!(rt; graph.objects(), 4);
    let rows = [
        (Group::Classes, 4, 4),
        (Group::Class(0x11), 8, 1),
        (Group::Class(0x11), 12, 4),
        (Group::Prim(10), 8, 0),
    ];
    for o in 0..4u32 {
        let (group, bytes, slots) = rows[o as usize];
        assert_eq!(rt; graph.group_of(o), group);
        assert_eq!(rt; graph.bytes_of(o), bytes);
        assert_eq!(rt; graph.slots_len(o), slots);
        assert_eq!(rt; graph.referent_of(o), None);
    }
    assert_eq!(rt; graph.counts().unresolved, 2);
}

#[test]
fn referent(rt: HostRuntime) {
    let text = "ids 4\nreference-names\nsegment\nreference 21 of 13: 5\nreference-classes\n";
    let graph = graph_of(&rt, rt.alloc(), text).expect(&rt, "the dump opens");
    assert_eq!(rt; graph.objects(), 7);
    assert_eq!(rt; graph.referent_of(0), Some(Slot::Field(0)));
    assert_eq!(rt; graph.referent_of(1), None);
}

#[test]
fn edges_of_kinds(rt: HostRuntime) {
    let graph = graph_of(&rt, rt.alloc(), WEAK_AND_FINAL).expect(&rt, "the dump opens");
    assert_eq!(rt; graph.objects(), 10);
    let kinds = graph
        .kind_lists(&rt, rt.alloc())
        .expect(&rt, "there is memory");
    assert_eq!(rt; graph.kind_len(&kinds, RefKind::Soft), 0);
    assert_eq!(rt; graph.kind_len(&kinds, RefKind::Phantom), 0);
    assert_eq!(rt; graph.kind_len(&kinds, RefKind::Weak), 1);
    assert!(rt; graph.kind_edge(&kinds, RefKind::Weak, 0) == (7, Slot::Field(0)));
    assert_eq!(rt; graph.kind_len(&kinds, RefKind::Final), 1);
    assert!(rt; graph.kind_edge(&kinds, RefKind::Final, 0) == (8, Slot::Field(0)));
}

/// The supports of five arrays in a row, of which the third leads to the fourth by its element 1.
fn support_in_a_row(o: u32) -> Support {
    match o {
        0 => Support::Root(0),
        3 => Support::Edge {
            source: 2,
            slot: Slot::Element(1),
        },
        _ => Support::Edge {
            source: o.saturating_sub(1),
            slot: Slot::Element(0),
        },
    }
}

#[test]
fn supports_of_a_cycle(rt: HostRuntime) {
    let graph = graph_of(&rt, rt.alloc(), CYCLE).expect(&rt, "the dump opens");
    let front = Front::empty(rt.alloc()).expect(&rt, "a log is made");
    let strengths = from_scratch(&rt, rt.alloc(), &graph, &front).expect(&rt, "the search ends");
    assert_eq!(rt; strengths.len(), 5);
    for o in 0..5u32 {
        assert!(rt; strengths.strength(o) == Strength::Strong);
        assert!(rt; strengths.support(o) == support_in_a_row(o));
        assert!(rt; o == 0 || strengths.stamp(o - 1) < strengths.stamp(o));
    }
}
