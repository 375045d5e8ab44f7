//! Tests of memory that several threads fill.
use hd_buffer::Buffer;
use std::alloc::Global;
use std::convert::AsSlice;
use std::rt::HostRuntime;
use std::sync::atomic::{AtomicU64, Ordering};

/// The byte that belongs at an offset: the three lowest bytes of the offset, xor-ed.
fn byte_for(offset: usize) -> u8 {
    ((offset ^ (offset >> 8) ^ (offset >> 16)) & 0xff) as u8
}

/// Writes the bytes that belong at the offsets from one on.
fn write_bytes(offset: usize, run: &mut [u8]) {
    for i in 0..run.len() {
        run[i] = byte_for(offset.wrapping_add(i));
    }
}

/// How many bytes aren't those that belong at their offsets.
fn misplaced(bytes: &[u8]) -> usize {
    let mut count: usize = 0;
    for i in 0..bytes.len() {
        if bytes[i] != byte_for(i) {
            count = count.saturating_add(1);
        }
    }
    count
}

#[test]
fn bytes_come_to_their_offsets(rt: HostRuntime) {
    let buffer = Buffer::with_capacity(rt.alloc(), 5).expect(&rt, "there is memory");
    let buffer = buffer.fill(&rt, 5, &write_bytes);
    assert_eq!(rt; buffer.as_slice(), [0, 1, 2, 3, 4].as_slice());
    let long = Buffer::with_capacity(rt.alloc(), 9_000_003).expect(&rt, "there is memory");
    let long = long.fill(&rt, 3, &write_bytes);
    let long = long.fill(&rt, 8_000_000, &write_bytes);
    let long = long.fill(&rt, 1_000_000, &write_bytes);
    assert_eq!(rt; long.len(), 9_000_003);
    assert_eq!(rt; misplaced(long.as_slice()), 0);
}

#[test]
fn what_is_left_of_zeros_is_kept(rt: HostRuntime) {
    let calls = AtomicU64::new(0);
    let count = |_offset: usize, _run: &mut [u8]| {
        calls.fetch_add(1, Ordering::SeqCst);
    };
    let buffer = Buffer::with_capacity(rt.alloc(), 9).expect(&rt, "there is memory");
    assert!(rt; buffer.as_slice().is_empty());
    let buffer = buffer.fill(&rt, 0, &count);
    assert_eq!(rt; calls.load(Ordering::SeqCst), 0);
    let buffer = buffer.fill(&rt, 3, &count);
    assert_eq!(rt; buffer.as_slice(), [0, 0, 0].as_slice());
    assert_eq!(rt; buffer.room(), 6);
    assert_eq!(rt; calls.load(Ordering::SeqCst), 1);
}
