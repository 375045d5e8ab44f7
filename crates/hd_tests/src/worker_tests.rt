//! Segments on workers: in file order whatever the number of workers, who passes the gate, and that they run at once.
use hd_decode::{Gate, NoGate, decode, shares_of};
use hd_opening::open_dump;
use hd_records::read_records;
use hd_spell::spell;
use hd_terms::{Mode, Span};
use std::sync::atomic::{AtomicBool, AtomicU64, Ordering};
use std::thread;

/// Two object arrays and a root on the first, in three segments.
const THREE_SEGMENTS: &str = "ids 4\nsegment\nroot 1\nsegment\narray 1: 2 0 9\nsegment\narray 2:\n";

#[test]
fn sub_records_in_file_order(rt: HostRuntime) {
    let file = spell(rt.alloc(), THREE_SEGMENTS).expect(&rt, "the file is spelled");
    let records = read_records(rt.alloc(), file.as_slice()).expect(&rt, "the records are read");
    for workers in 1..17u32 {
        let decoded = decode(&rt, rt.alloc(), file.as_slice(), &records, workers, &NoGate);
        let list = decoded.expect(&rt, "the segments are read");
        assert_eq!(rt; list.len(), 3);
        for (i, offset) in [40, 54, 92].into_iter().enumerate() {
            if i < list.len() {
                assert_eq!(rt; list.get(i).offset, offset);
            }
        }
    }
}

/// A large segment among small ones: their lengths are 10, 1000, 10 and 10.
const ONE_LARGE: [Span; 4] = [
    Span { start: 0, len: 10 },
    Span {
        start: 10,
        len: 1000,
    },
    Span {
        start: 1010,
        len: 10,
    },
    Span {
        start: 1020,
        len: 10,
    },
];

#[test]
fn one_large_segment(rt: HostRuntime) {
    // of 1030 bytes each of two workers has 515; the middle of the large segment is at 510
    let shares = shares_of(rt.alloc(), &ONE_LARGE, 2).expect(&rt, "the shares are made");
    assert_eq!(rt; shares.len(), 2);
    for (share, segments) in shares.iter().zip([2, 2]) {
        assert_eq!(rt; share.len(), segments);
    }
    // of 1030 bytes the first of four workers has 257, the second 340 of the 1020 that are left, and the third 510 of them
    let shares = shares_of(rt.alloc(), &ONE_LARGE, 4).expect(&rt, "the shares are made");
    assert_eq!(rt; shares.len(), 4);
    for (share, segments) in shares.iter().zip([1, 0, 1, 2]) {
        assert_eq!(rt; share.len(), segments);
    }
}

/// A gate that adds up what each worker that comes counts for: 1 for worker 0, 16 for worker 1, 256 for worker 2, and so on.
#[derive(Drop)]
struct Counter {
    came: AtomicU64,
}

impl Gate for Counter {
    fn enter(&self, worker: u32) {
        self.came
            .fetch_add(1 << (4 * (worker % 16)), Ordering::SeqCst);
    }
}

#[test]
fn each_worker_comes_once(rt: HostRuntime) {
    let file = spell(rt.alloc(), "ids 4\n").expect(&rt, "the file is spelled");
    let counter = Counter {
        came: AtomicU64::new(0),
    };
    let records = read_records(rt.alloc(), file.as_slice()).expect(&rt, "the records are read");
    let decoded = decode(&rt, rt.alloc(), file.as_slice(), &records, 16, &counter);
    let list = decoded.expect(&rt, "the segments are read");
    assert!(rt; list.is_empty());
    assert_eq!(rt; counter.came.load(Ordering::SeqCst), 0x1111_1111_1111_1111);
}

/// A gate in which each of two workers waits for the other.
#[derive(Drop)]
struct Meeting {
    came: [AtomicBool; 2],
    met: [AtomicBool; 2],
}

impl Gate for Meeting {
    fn enter(&self, worker: u32) {
        let own = (worker % 2) as usize;
        self.came[own].store(true, Ordering::SeqCst);
        for _ in 0..10_000_000u32 {
            if self.came[1 - own].load(Ordering::SeqCst) {
                self.met[own].store(true, Ordering::SeqCst);
                return;
            }
            thread::yield_now();
        }
    }
}

#[test]
fn workers_run_at_once(rt: HostRuntime) {
    let file = spell(rt.alloc(), THREE_SEGMENTS).expect(&rt, "the file is spelled");
    let meeting = Meeting {
        came: [AtomicBool::new(false), AtomicBool::new(false)],
        met: [AtomicBool::new(false), AtomicBool::new(false)],
    };
    let opened = open_dump(&rt, rt.alloc(), file.as_slice(), 2, Mode::Direct, &meeting);
    assert!(rt; opened.is_ok());
    assert!(rt; meeting.met[0].load(Ordering::SeqCst));
    assert!(rt; meeting.met[1].load(Ordering::SeqCst));
}
