//! The IDs of objects, compared with a set of the library: close together, at odd addresses, far apart, and repeated.
use hd_ids::ObjectIds;
use indexmap::IndexSet;
use std::alloc::Global;
use std::process::Abort;

/// The next number of a sequence that looks random.
fn next(state: u64) -> u64 {
    state
        .wrapping_mul(6_364_136_223_846_793_005)
        .wrapping_add(1_442_695_040_888_963_407)
}

/// The ID of a step: in runs 24 bytes apart, at odd addresses, far apart, or among few addresses, so that many come again.
fn id_at(step: u64, random: u64) -> u64 {
    match random >> 62 {
        0 => step.wrapping_mul(24).wrapping_add(0xe000_0000),
        1 => (random >> 20) & 0x3_ffff,
        2 => (random >> 3).wrapping_mul(8),
        _ => ((random >> 30) & 0x7ff)
            .wrapping_mul(8)
            .wrapping_add(0x7f00_0000_0000),
    }
}

/// Whether an index answers for an ID, and for the one beside it, what a set does, before and after both note it.
fn agree<R: Abort>(rt: &R, ids: &mut ObjectIds, set: &mut IndexSet<u64>, id: u64) -> bool {
    let before = ids.index_of(id) == set.get_index_of(&id);
    let new = ids.note(id).expect(rt, "the ID is noted");
    let noted = new == set.insert(id).expect(rt, "the set takes the ID");
    let after = ids.index_of(id) == set.get_index_of(&id);
    let beside = ids.index_of(id ^ 1) == set.get_index_of(&(id ^ 1));
    before && noted && after && beside
}

/// Whether the IDs of an index are these, in this order.
fn are_those(ids: &ObjectIds, wanted: &[u64]) -> bool {
    if ids.len() != wanted.len() {
        return false;
    }
    for number in 0..wanted.len() {
        if ids.get(number) != wanted[number] {
            return false;
        }
    }
    true
}

/// Whether they agree for the IDs of `steps` steps.
fn agree_for<R: Abort>(rt: &R, ids: &mut ObjectIds, set: &mut IndexSet<u64>, steps: u64) -> bool {
    let mut random = 1;
    for step in 0..steps {
        random = next(random);
        if !agree(rt, ids, set, id_at(step, random)) {
            return false;
        }
    }
    are_those(ids, set.as_slice())
}

#[test]
fn ids_as_in_a_set(rt: HostRuntime) {
    let made = ObjectIds::with_capacity(rt.alloc(), 0, 0x1234_5678_9abc_def1);
    let mut ids = made.expect(&rt, "an index is made");
    let mut set: IndexSet<u64> = IndexSet::new(rt.alloc());
    assert!(rt; agree_for(&rt, &mut ids, &mut set, 20_000));
}

/// Whether an ID that wasn't noted is new when it is noted, and isn't the next time.
fn is_noted_once<R: Abort>(rt: &R, ids: &mut ObjectIds, id: u64) -> bool {
    ids.index_of(id).is_none()
        && ids.note(id).expect(rt, "the ID is noted")
        && !ids.note(id).expect(rt, "the ID is noted again")
}

/// Where the IDs of steps lie.
#[derive(Clone, Copy)]
enum Spread {
    /// One to a page, far from each other.
    FarApart,
    /// On 120 pages in turns, so that IDs of one page are 120 numbers apart.
    InTurns,
}

/// The ID of a step.
fn id_of(spread: Spread, step: u64) -> u64 {
    match spread {
        Spread::FarApart => step << 40,
        Spread::InTurns => (step % 120)
            .wrapping_mul(4096)
            .wrapping_add((step / 120).wrapping_mul(8)),
    }
}

/// Whether each of `steps` IDs is new, and then has the number of its step, as often as it is asked for.
fn are_noted<R: Abort>(rt: &R, ids: &mut ObjectIds, spread: Spread, steps: u64) -> bool {
    for step in 0..steps {
        if !is_noted_once(rt, ids, id_of(spread, step)) {
            return false;
        }
    }
    let mut finder = ids.finder();
    for step in 0..steps {
        for _ in 0..2 {
            if finder.index_of(id_of(spread, step)) != Some(step as usize) {
                return false;
            }
        }
    }
    true
}

/// Whether the IDs 8 behind those of `steps` steps, far apart, have no number.
fn none_behind(ids: &ObjectIds, steps: u64) -> bool {
    for step in 0..steps {
        if ids.index_of(id_of(Spread::FarApart, step) | 8).is_some() {
            return false;
        }
    }
    true
}

/// One ID to a page, so that the rows are given up after 130 of them.
#[test]
fn ids_far_apart(rt: HostRuntime) {
    let mut ids = ObjectIds::with_capacity(rt.alloc(), 0, 7).expect(&rt, "an index is made");
    assert!(rt; are_noted(&rt, &mut ids, Spread::FarApart, 3000));
    assert_eq!(rt; ids.len(), 3000);
    assert!(rt; none_behind(&ids, 3000));
}

/// Numbers that are near the first of their page, and numbers that are far behind it.
#[test]
fn ids_in_turns(rt: HostRuntime) {
    let mut ids = ObjectIds::with_capacity(rt.alloc(), 0, 3).expect(&rt, "an index is made");
    assert!(rt; are_noted(&rt, &mut ids, Spread::InTurns, 1200));
}

/// IDs of one block of 256 addresses whose numbers follow one another, some of the next one, and one that lies before others.
#[test]
fn ids_that_follow(rt: HostRuntime) {
    let more = [
        0x1008, 0x1018, 0x1020, 0x10f8, 0x1100, 0x1108, 0x1010, 0x1028,
    ];
    let ids = ids_of(&rt, rt.alloc(), &more);
    let mut finder = ids.finder();
    for (number, id) in more.into_iter().enumerate() {
        assert_eq!(rt; finder.index_of(id), Some(number));
        assert_eq!(rt; ids.index_of(id), Some(number));
    }
    assert_eq!(rt;
        (finder.index_of(0x1000), ids.index_of(0x1030)),
        (None, None)
    );
}

/// Notes IDs, and answers the numbers that two others have then.
fn noted<R: Abort>(rt: &R, ids: &mut ObjectIds, more: &[u64]) -> (Option<usize>, Option<usize>) {
    for id in more {
        ids.note(*id).expect(rt, "the ID is noted");
    }
    (ids.index_of(4095), ids.index_of(16))
}

#[test]
fn ids_at_the_ends(rt: HostRuntime) {
    let mut ids = ObjectIds::with_capacity(rt.alloc(), 0, 0).expect(&rt, "an index is made");
    assert_eq!(rt; (ids.is_empty(), ids.index_of(0)), (true, None));
    let more = [0, u64::MAX, 0, 1, u64::MAX - 7, 4096, 4095, 8];
    assert_eq!(rt; noted(&rt, &mut ids, &more), (Some(5), None));
    let once = [0, u64::MAX, 1, u64::MAX - 7, 4096, 4095, 8];
    assert!(rt; are_those(&ids, once.as_slice()));
}

/// The ID at an offset of a page of 4,096 addresses. The rows of pages whose numbers are 256 apart take turns in one place of
/// a finder.
fn id_in(page: u64, offset: u64) -> u64 {
    page.wrapping_mul(4096).wrapping_add(offset)
}

#[test]
fn finder_of_pages_with_one_place(rt: HostRuntime) {
    let mut ids = ObjectIds::with_capacity(rt.alloc(), 0, 5).expect(&rt, "an index is made");
    let (first, second, none) = (7, 7 + 256, 7 + 512);
    for id in [id_in(first, 0), id_in(second, 0), id_in(first, 8)] {
        ids.note(id).expect(&rt, "the ID is noted");
    }
    let mut finder = ids.finder();
    assert_eq!(rt; finder.index_of(id_in(first, 0)), Some(0));
    assert_eq!(rt; finder.index_of(id_in(second, 0)), Some(1));
    assert_eq!(rt; finder.index_of(id_in(first, 8)), Some(2));
    assert_eq!(rt; finder.index_of(id_in(none, 8)), None);
    assert_eq!(rt; finder.index_of(id_in(first, 8)), Some(2));
    assert_eq!(rt; finder.index_of(id_in(second, 8)), None);
}

/// These IDs, noted one after another.
fn ids_of<R: Abort>(rt: &R, alloc: Global, more: &[u64]) -> ObjectIds {
    let mut ids = ObjectIds::with_capacity(alloc, 0, 9).expect(rt, "an index is made");
    for id in more {
        ids.note(*id).expect(rt, "the ID is noted");
    }
    ids
}

/// The IDs of parts, those of each behind those of the parts before; `None` if an ID is in two.
fn followed<R: Abort>(rt: &R, parts: [ObjectIds; 4]) -> Option<ObjectIds> {
    let [first, second, third, fourth] = parts;
    let two = first.followed_by(second).expect(rt, "there is room")?;
    let three = two.followed_by(third).expect(rt, "there is room")?;
    let four = three.followed_by(fourth).expect(rt, "there is room")?;
    Some(four.indexed())
}

/// Whether an index has these IDs, in this order, and none beside them.
fn finds_those(ids: &ObjectIds, wanted: &[u64]) -> bool {
    let mut finder = ids.finder();
    for number in 0..wanted.len() {
        let id = wanted[number];
        if ids.index_of(id) != Some(number) || finder.index_of(id) != Some(number) {
            return false;
        }
    }
    are_those(ids, wanted)
}

#[test]
fn ids_of_four_parts(rt: HostRuntime) {
    // 0x1008, 0x1010 and 0x1020 lie on one page, 0x9000 and 0x9008 on another
    let first = ids_of(&rt, rt.alloc(), &[0x1008, 0x9000]);
    let second = ids_of(&rt, rt.alloc(), &[0x2000, 0x1010]);
    let third = ids_of(&rt, rt.alloc(), &[0x9008]);
    let fourth = ids_of(&rt, rt.alloc(), &[0x1020, 0x3000]);
    let ids = followed(&rt, [first, second, third, fourth]).expect(&rt, "no ID is in two");
    let all = [0x1008, 0x9000, 0x2000, 0x1010, 0x9008, 0x1020, 0x3000];
    assert!(rt; finds_those(&ids, &all));
    assert_eq!(rt; ids.index_of(0x1018), None);
    let mut finder = ids.finder();
    // An ID of a page between two that have some, and one behind all pages.
    for absent in [0x1018, 0x1009, 0x4000, 0xa000, 0xffff_ffff_ffff_fff8] {
        assert_eq!(rt; finder.index_of(absent), None);
    }
}

/// Whether parts with these IDs, one in each, can be joined.
fn are_joined<R: Abort>(rt: &R, alloc: Global, ids: [u64; 4]) -> bool {
    let [first, second, third, fourth] = ids;
    let first = ids_of(rt, alloc, &[first, 0x9000]);
    let second = ids_of(rt, alloc, &[second]);
    let third = ids_of(rt, alloc, &[third, 0x2000]);
    let fourth = ids_of(rt, alloc, &[fourth]);
    followed(rt, [first, second, third, fourth]).is_some()
}

#[test]
fn ids_of_two_of_the_parts(rt: HostRuntime) {
    assert!(rt; are_joined(&rt, rt.alloc(), [8, 16, 24, 32]));
    for ids in [
        [8, 8, 24, 32],
        [8, 16, 8, 32],
        [8, 16, 24, 8],
        [8, 16, 16, 32],
        [8, 16, 24, 16],
        [8, 16, 24, 24],
    ] {
        assert!(rt; !are_joined(&rt, rt.alloc(), ids));
    }
}

#[test]
fn ids_of_parts_without_some(rt: HostRuntime) {
    let none = || ids_of(&rt, rt.alloc(), &[]);
    let ids = followed(&rt, [none(), none(), none(), none()]).expect(&rt, "no ID is in two");
    assert_eq!(rt; (ids.len(), ids.index_of(8)), (0, None));
    let front = ids_of(&rt, rt.alloc(), &[8, 16]);
    let ids = followed(&rt, [none(), front, none(), none()]).expect(&rt, "no ID is in two");
    assert!(rt; finds_those(&ids, &[8, 16]));
    assert_eq!(rt; ids.index_of(24), None);
}

#[test]
fn ids_that_lie_apart(rt: HostRuntime) {
    // Consecutive, far apart, above 2^63, and with zero pages between.
    let first = ids_of(&rt, rt.alloc(), &[1, 2, 3, 0xffff_ffff_ffff_fff8]);
    let second = ids_of(&rt, rt.alloc(), &[0x8000_0000_0000_0000, 4]);
    let third = ids_of(&rt, rt.alloc(), &[0x1_0000, 0x4_0000]);
    let fourth = ids_of(&rt, rt.alloc(), &[0xffff_ffff_ffff_ffff]);
    let ids = followed(&rt, [first, second, third, fourth]).expect(&rt, "no ID is in two");
    let all = [
        1,
        2,
        3,
        0xffff_ffff_ffff_fff8,
        0x8000_0000_0000_0000,
        4,
        0x1_0000,
        0x4_0000,
        0xffff_ffff_ffff_ffff,
    ];
    assert!(rt; finds_those(&ids, &all));
    assert_eq!(rt;
        [5, 0x2_0000, 0].map(|id| ids.index_of(id)),
        [None, None, None]
    );
}
