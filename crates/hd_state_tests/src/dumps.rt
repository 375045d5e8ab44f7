//! The dumps that several tests share.
use hd_decode::NoGate;
use hd_graph::Graph;
use hd_opening::open_dump;
use hd_spell::spell;
use hd_terms::{Mode, NoMemory};
use std::alloc::Global;
use std::fmt::Write as _;
use std::random::RandomSource;
use std::sync::Arc;
use std::thread::Threads;

/// Two object arrays and a root on the first.
pub const TWO_ARRAYS: &str = "ids 4\nsegment\nroot 1\narray 1: 2 0 9\narray 2:\n";

/// A weak reference 0x21 and a finalizer 0x31 on one array, behind the six classes, and a list of the first.
pub const WEAK_AND_FINAL: &str = "ids 4\nreference-names\nsegment\nreference-classes\nroot 1\n\
    array 1: 21 31\nreference 21 of 13: 5\nreference 31 of 16: 5\narray 5:\n";

/// Two soft references 0x21 and 0x23 behind the six classes, and a list of both: the first leads to a weak reference 0x22 on
/// the array 3, the second to the array 5, and both arrays refer to the array 4.
pub const SOFT_THEN_WEAK: &str = "ids 4\nreference-names\nsegment\nreference-classes\nroot 1\n\
    array 1: 21 23\nreference 21 of 12: 22\nreference 22 of 13: 3\narray 3: 4\nreference 23 of 12: 5\n\
    array 5: 4\narray 4:\n";

/// Five arrays in a row, the third leading back to the second and the fifth to the fourth.
pub const CYCLE: &str =
    "ids 4\nsegment\nroot 1\narray 1: 2\narray 2: 3\narray 3: 2 4\narray 4: 5\narray 5: 4\n";

/// An array of the class 0x99, a class, an instance of it, and an instance of a class that isn't there.
pub const GROUPS: &str = "ids 4\nsegment\nroot 1\narray 1 of 99: 2 3\nclass 11:\n\
    instance 2 of 11:\ninstance 3 of 98: 00000005\n";

/// An array of 3,000 references, each to an empty array of its own, of IDs from 2 to 3,001.
pub fn wide_array(alloc: Global) -> Result<String, NoMemory> {
    let mut text = String::new(alloc);
    text.push_str("ids 4\nsegment\nroot 1\narray 1:")?;
    for id in 2..3002u32 {
        write!(text, " {id:x}").map_err(|_| NoMemory)?;
    }
    for id in 2..3002u32 {
        write!(text, "\narray {id:x}:").map_err(|_| NoMemory)?;
    }
    text.push_str("\n")?;
    Ok(text)
}

/// The same array, which stands behind the others, and these from the greatest ID down.
pub fn wide_array_backwards(alloc: Global) -> Result<String, NoMemory> {
    let mut text = String::new(alloc);
    text.push_str("ids 4\nsegment\nroot 1")?;
    for below in 0..3000u32 {
        write!(text, "\narray {:x}:", 3001 - below).map_err(|_| NoMemory)?;
    }
    text.push_str("\narray 1:")?;
    for id in 2..3002u32 {
        write!(text, " {id:x}").map_err(|_| NoMemory)?;
    }
    text.push_str("\n")?;
    Ok(text)
}

/// The graph of the dump that a text spells, opened in a mode, if it opens.
pub fn graph_in<R: RandomSource + Threads + Sync>(
    rt: &R,
    alloc: Global,
    text: &str,
    mode: Mode,
) -> Option<Arc<Graph>> {
    let bytes = spell(alloc, text).ok()?;
    open_dump(rt, alloc, bytes.as_slice(), 1, mode, &NoGate).ok()
}

/// The graph of the dump that a text spells, if it opens.
pub fn graph_of<R: RandomSource + Threads + Sync>(
    rt: &R,
    alloc: Global,
    text: &str,
) -> Option<Arc<Graph>> {
    graph_in(rt, alloc, text, Mode::Direct)
}
