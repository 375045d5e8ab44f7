//! Tests of calls at each place of a list, and with each number.
use hd_threads::{for_each_mut, map_indices};
use std::rt::HostRuntime;

/// Writes ten times the place, and the item's last digit behind it.
fn write_place(place: usize, item: &mut u64) {
    *item = (place as u64).wrapping_mul(10).wrapping_add(*item % 10);
}

#[test]
fn each_place_is_told(rt: HostRuntime) {
    let mut items: [u64; 7] = [1, 2, 3, 4, 5, 6, 7];
    for_each_mut(&rt, items.as_mut_slice(), 3, &write_place);
    assert_eq!(rt; items.as_slice(), [1, 12, 23, 34, 45, 56, 67].as_slice());
    let mut items: [u64; 3] = [1, 2, 3];
    for_each_mut(&rt, items.as_mut_slice(), 1, &write_place);
    assert_eq!(rt; items.as_slice(), [1, 12, 23].as_slice());
    let mut items: [u64; 2] = [5, 6];
    for_each_mut(&rt, items.as_mut_slice(), 4, &write_place);
    assert_eq!(rt; items.as_slice(), [5, 16].as_slice());
    let mut none: [u64; 0] = [];
    for_each_mut(&rt, none.as_mut_slice(), 4, &write_place);
    assert!(rt; none.as_slice().is_empty());
}

#[test]
fn answers_are_in_order(rt: HostRuntime) {
    let ten_times = |i: usize| -> u64 { (i as u64).wrapping_mul(10) };
    let answers = map_indices(&rt, rt.alloc(), 5, &ten_times).expect(&rt, "there is memory");
    assert_eq!(rt; answers.as_slice(), [0, 10, 20, 30, 40].as_slice());
    let one = map_indices(&rt, rt.alloc(), 1, &ten_times).expect(&rt, "there is memory");
    assert_eq!(rt; one.as_slice(), [0].as_slice());
    let none = map_indices(&rt, rt.alloc(), 0, &ten_times).expect(&rt, "there is memory");
    assert!(rt; none.is_empty());
}
