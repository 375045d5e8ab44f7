//! Parts of objects: which part has each object at a boundary, where some parts are empty and one is of a single object.
use hd_parts::PartIndex;
use std::rt::HostRuntime;

#[test]
fn parts_at_boundaries(rt: HostRuntime) {
    let lens: [usize; 7] = [0, 3, 0, 65_536, 1, 0, 70_000];
    let index = PartIndex::of(rt.alloc(), lens.as_slice()).expect(&rt, "the index is made");
    assert!(rt; index.find(0) == (1, 0));
    assert!(rt; index.find(2) == (1, 0));
    assert!(rt; index.find(3) == (3, 3));
    assert!(rt; index.find(65_535) == (3, 3));
    assert!(rt; index.find(65_536) == (3, 3));
    assert!(rt; index.find(65_538) == (3, 3));
    assert!(rt; index.find(65_539) == (4, 65_539));
    assert!(rt; index.find(65_540) == (6, 65_540));
    assert!(rt; index.find(131_071) == (6, 65_540));
    assert!(rt; index.find(131_072) == (6, 65_540));
    assert!(rt; index.find(135_539) == (6, 65_540));
}
