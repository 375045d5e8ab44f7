//! Lists in pages: what is written in one version is read there, and in no other.
use hd_pages::Pages;
use hd_supports::{PackedReached, Strengths, Supports};
use hd_terms::{Slot, Strength, Support};
use std::alloc::Global;
use std::process::Abort;

/// Puts an item at a place, where the list has it.
fn put<R: Abort>(rt: &R, pages: &mut Pages<u64>, i: u32, item: u64) {
    if i < pages.len() {
        pages.with(i, item).expect(rt, "the item is put");
    }
}

/// The item at a place, if there is one.
fn at(pages: &Pages<u64>, i: u32) -> Option<u64> {
    if i < pages.len() {
        Some(pages.get(i))
    } else {
        None
    }
}

/// The first list and the second behind it, where neither is long.
fn joined<R: Abort>(
    rt: &R,
    alloc: Global,
    first: Pages<u64>,
    second: Pages<u64>,
) -> Option<Pages<u64>> {
    if first.len() > 1_000_000 || second.len() > 1_000_000 {
        return None;
    }
    Some(
        first
            .append(alloc, second)
            .expect(rt, "the lists are joined"),
    )
}

/// What is kept of an object, if there is one.
fn kept(supports: &Supports, o: u32) -> Option<(Strength, Support, u64)> {
    if o < supports.len() {
        Some((supports.strength(o), supports.support(o), supports.stamp(o)))
    } else {
        None
    }
}

#[test]
fn versions_of_a_list(rt: HostRuntime) {
    let items = vec![in rt.alloc(); 9u64; 300_000].expect(&rt, "the items are made");
    let mut first = Pages::of_vec(rt.alloc(), items).expect(&rt, "the list is made");
    let mut second = first.share(rt.alloc()).expect(&rt, "the list is shared");
    put(&rt, &mut first, 0, 1);
    put(&rt, &mut first, 262_144, 2);
    put(&rt, &mut first, 299_999, 3);
    put(&rt, &mut second, 0, 4);
    put(&rt, &mut second, 1024, 5);
    let third = second.share(rt.alloc()).expect(&rt, "the list is shared");
    put(&rt, &mut second, 1024, 6);
    assert_eq!(rt; first.len(), 300_000);
    let ends = [0, 1, 1024, 262_143, 262_144, 299_999].map(|i| at(&first, i));
    assert_eq!(rt;
        ends,
        [Some(1), Some(9), Some(9), Some(9), Some(2), Some(3)]
    );
    let ends = [0, 1024, 299_999].map(|i| at(&second, i));
    assert_eq!(rt; ends, [Some(4), Some(6), Some(9)]);
    assert_eq!(rt; (at(&third, 0), at(&third, 1024)), (Some(4), Some(5)));
}

#[test]
fn versions_share_pages(rt: HostRuntime) {
    let items = vec![in rt.alloc(); 7u64; 2049].expect(&rt, "the items are made");
    let first = Pages::of_vec(rt.alloc(), items).expect(&rt, "the list is made");
    let mut second = first.share(rt.alloc()).expect(&rt, "the list is shared");
    put(&rt, &mut second, 2048, 8);
    assert_eq!(rt; (first.len(), second.len()), (2049, 2049));
    assert_eq!(rt; (at(&first, 2048), at(&second, 2048)), (Some(7), Some(8)));
    assert_eq!(rt; (at(&first, 2047), at(&second, 2047)), (Some(7), Some(7)));
    assert_eq!(rt; (at(&first, 0), at(&second, 0)), (Some(7), Some(7)));
    assert_eq!(rt; at(&second, 2049), None);
}

#[test]
fn list_without_items(rt: HostRuntime) {
    let items: Vec<u64> = Vec::new(rt.alloc());
    let list = Pages::of_vec(rt.alloc(), items).expect(&rt, "the list is made");
    let shared = list.share(rt.alloc()).expect(&rt, "the list is shared");
    assert_eq!(rt; shared.len(), 0);
}

#[test]
fn versions_of_supports(rt: HostRuntime) {
    let items = vec![in rt.alloc(); PackedReached::by_root(2); 1025];
    let found = items.expect(&rt, "the items are made");
    let mut first = Supports::of(rt.alloc(), Strengths::of(found)).expect(&rt, "the list is made");
    let second = first.share(rt.alloc()).expect(&rt, "the list is shared");
    let edge = Support::Edge {
        source: 7,
        slot: Slot::Element(3),
    };
    if first.len() > 1024 {
        first
            .put(1024, Strength::Weak, edge, 5)
            .expect(&rt, "the support is put");
    }
    let root = Some((Strength::Strong, Support::Root(2), 0));
    assert!(rt; kept(&first, 1024) == Some((Strength::Weak, edge, 5)));
    assert!(rt; kept(&first, 0) == root);
    assert!(rt; kept(&second, 1024) == root);
    assert!(rt; kept(&second, 1025).is_none());
}

#[test]
fn list_behind_whole_groups(rt: HostRuntime) {
    let items = vec![in rt.alloc(); 7u64; 262_144].expect(&rt, "the items are made");
    let mut first = Pages::of_vec(rt.alloc(), items).expect(&rt, "the list is made");
    put(&rt, &mut first, 0, 1);
    put(&rt, &mut first, 262_143, 2);
    let items = vec![in rt.alloc(); 3u64, 4, 5].expect(&rt, "the items are made");
    let second = Pages::of_vec(rt.alloc(), items).expect(&rt, "the list is made");
    let both = joined(&rt, rt.alloc(), first, second).expect(&rt, "the lists are short");
    assert_eq!(rt; both.len(), 262_147);
    let ends = [0, 1, 262_143, 262_144, 262_145, 262_146, 262_147].map(|i| at(&both, i));
    assert_eq!(rt;
        ends,
        [Some(1), Some(7), Some(2), Some(3), Some(4), Some(5), None]
    );
}

#[test]
fn list_behind_a_short_one(rt: HostRuntime) {
    let items = vec![in rt.alloc(); 1u64, 2].expect(&rt, "the items are made");
    let first = Pages::of_vec(rt.alloc(), items).expect(&rt, "the list is made");
    let items = vec![in rt.alloc(); 3u64, 4, 5].expect(&rt, "the items are made");
    let second = Pages::of_vec(rt.alloc(), items).expect(&rt, "the list is made");
    let both = joined(&rt, rt.alloc(), first, second).expect(&rt, "the lists are short");
    assert_eq!(rt; both.len(), 5);
    let all = [0, 1, 2, 3, 4, 5].map(|i| at(&both, i));
    assert_eq!(rt; all, [Some(1), Some(2), Some(3), Some(4), Some(5), None]);
}

#[test]
fn supports_of_parts(rt: HostRuntime) {
    let items = vec![in rt.alloc(); PackedReached::by_root(2); 262_144];
    let first = Strengths::of(items.expect(&rt, "the items are made"));
    let items = vec![in rt.alloc(); PackedReached::by_root(5); 2];
    let second = Strengths::of(items.expect(&rt, "the items are made"));
    let items = vec![in rt.alloc(); PackedReached::unreached(); 1];
    let third = Strengths::of(items.expect(&rt, "the items are made"));
    let parts = vec![in rt.alloc(); first, second, third].expect(&rt, "the parts are listed");
    let all = Supports::of_parts(&rt, rt.alloc(), parts).expect(&rt, "the lists are joined");
    let of_first = Some((Strength::Strong, Support::Root(2), 0));
    let of_second = Some((Strength::Strong, Support::Root(5), 0));
    let nothing = Some((Strength::Unreachable, Support::Nothing, 0));
    assert_eq!(rt; all.len(), 262_147);
    assert!(rt; kept(&all, 0) == of_first && kept(&all, 262_143) == of_first);
    assert!(rt; kept(&all, 262_144) == of_second && kept(&all, 262_145) == of_second);
    assert!(rt; kept(&all, 262_146) == nothing && kept(&all, 262_147).is_none());
}
